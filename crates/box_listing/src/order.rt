// The order of sites.

ghost use Rattle.std.specs.Prelude.{◌≡◌, OnOk};
ghost use Rattle.box_policy.specs.Decisions.{kind_number};
ghost use Rattle.box_listing.specs.Listings as spec;
ghost use Rattle.box_listing.specs.Listings.{IsInOrder};

use crate::site::Site;
use awk_text::Memory;
use box_policy::policy::Kind;

fn number_of(kind: Kind) -> u8
    ensures { result ≡ kind_number kind }
{
    match kind {
        Kind::Read => 0,
        Kind::Write => 1,
        Kind::Append => 2,
        Kind::Run => 3,
        Kind::Env => 4,
        Kind::Assign => 5,
    }
}

/// By place, then by kind.
fn key(site: &Site) -> (u32, u32, u8)
    ensures { result ≡ spec.key site.now }
{
    (site.place.line, site.place.column, number_of(site.kind))
}

/// Puts sites in order; those that stand at one place and are of one kind stay as they stood.
pub fn in_order(sites: &mut Vec<Site>) -> Result<(), Memory>
    ensures { OnOk result (IsInOrder sites.old.items sites.new.items) }
{
    sites.sort_by_key(|site| key(site))?;
    Ok(())
}
