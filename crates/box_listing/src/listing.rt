// The listing of a program.

ghost use Rattle.std.specs.Prelude.{◌≡◌, ◌++◌, [], IfOk, OnOk};
ghost use Rattle.awk_program.specs.View.{view_program};
ghost use Rattle.box_listing.specs.Listings as spec;
ghost use Rattle.box_listing.specs.Listings.{IsListing};

use crate::order::in_order;
use crate::program::found;
use crate::site::{Found, Site, Sort};
use awk_program::Program;
use awk_text::Memory;
use awk_text::place::Place;
use box_policy::policy::Kind;
use std::alloc::Global;

fn is_main_input(x: &Found) -> bool
    ensures { result ≡ spec.is_main_input x.now }
{
    match x {
        Found::MainInput => true,
        Found::At(_) => false,
    }
}

fn reads_main(xs: &[Found]) -> bool
    ensures { result ≡ spec.reads_main xs.now }
{
    xs.iter().any(|x| is_main_input(x))
}

fn at_start(kind: Kind) -> Site
    ensures { result ≡ spec.at_start kind }
{
    Site {
        place: Place { line: 0, column: 0 },
        kind,
        text: None,
    }
}

fn push_if(so: bool, kind: Kind, sites: &mut Vec<Site>) -> Result<(), Memory>
    ensures { OnOk result (sites.new.items ≡ sites.old.items ++ spec.if_so so kind) }
{
    if so {
        sites.push(at_start(kind))?;
    }
    Ok(())
}

/// The sites at 0:0.
fn started(alloc: Global, reads: bool, names: bool) -> Result<Vec<Site>, Memory>
    ensures { IfOk result (λ sites. sites.items ≡ spec.started reads names) }
{
    let mut sites = Vec::new(alloc);
    push_if(reads, Kind::Read, &mut sites)?;
    push_if(names, Kind::Env, &mut sites)?;
    push_if(reads, Kind::Assign, &mut sites)?;
    Ok(sites)
}

/// Adds the sites that have a place.
fn push_placed(xs: Vec<Found>, sites: &mut Vec<Site>) -> Result<(), Memory>
    ensures { OnOk result (sites.new.items ≡ sites.old.items ++ spec.placed xs.items) }
{
    for x in xs {
        match x {
            Found::MainInput => {}
            Found::At(site) => sites.push(site)?,
        }
    }
    Ok(())
}

/// What a program may ask, at each place where a run of it can ask: the sites in order of place, then of
/// kind, and then as the script has them. `order` says of what sort the script's items are, in their order: it
/// matters only where places do not tell sites apart, and items that it leaves out come last. `names_environ` says
/// that the script names ENVIRON. `Memory` where memory is refused.
pub fn listed(
    alloc: Global,
    program: &Program,
    order: &[Sort],
    names_environ: bool,
) -> Result<Vec<Site>, Memory>
    ensures { IfOk result (λ sites. IsListing (view_program program.now) order.now names_environ sites.items) }
{
    let found = found(alloc, program, order)?;
    let mut sites = started(alloc, reads_main(found.as_slice()), names_environ)?;
    push_placed(found, &mut sites)?;
    in_order(&mut sites)?;
    Ok(sites)
}
