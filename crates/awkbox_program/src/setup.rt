// What a run is started with.
use awkbox::{Memory, Message, Octets, Seed, Setup};
use awkbox_options::{Run, names};
use std::alloc::Global;
use std::time::{SystemTime, UNIX_EPOCH};

fn octets(alloc: Global, text: &str) -> Result<Octets, Memory> {
    Ok(Octets::of(alloc, text.as_bytes())?)
}

// The name, up to the first `=`, and the text of a word of `-v`. One without `=` has no name, and is
// refused for that.
fn pair_of(alloc: Global, word: &str) -> Result<(Octets, Octets), Memory> {
    let (name, text) = word.split_once('=').unwrap_or(("", word));
    Ok((octets(alloc, name)?, octets(alloc, text)?))
}

fn pairs_of(alloc: Global, words: &[&str]) -> Result<Vec<(Octets, Octets)>, Memory> {
    let mut pairs = Vec::new(alloc);
    for word in words {
        pairs.push(pair_of(alloc, word)?)?;
    }
    Ok(pairs)
}

fn separator_of(alloc: Global, run: &Run<'_>) -> Result<Option<Octets>, Memory> {
    match run.separator {
        Some(text) => Ok(Some(octets(alloc, text)?)),
        None => Ok(None),
    }
}

// The seconds since 1970, or 0 where the clock gives none.
fn seconds(rt: &HostRuntime) -> u64 {
    let Ok(now) = SystemTime::now(rt) else {
        return 0;
    };
    match now.duration_since(UNIX_EPOCH) {
        Ok(time) => time.as_secs(),
        Err(_) => 0,
    }
}

// What `srand ( )` seeds by.
fn random_seed(rt: &HostRuntime, run: &Run<'_>) -> u64 {
    match run.seed {
        Some(seed) => seed,
        None => seconds(rt),
    }
}

/// The setup of a run with these operands, or the message that refuses a word of `-v`.
pub fn setup_of(rt: &HostRuntime, run: &Run<'_>, operands: Vec<Octets>) -> Result<Setup, Message> {
    let alloc = rt.alloc();
    let assigns = pairs_of(alloc, run.assigns.as_slice())?;
    let separator = separator_of(alloc, run)?;
    // no memory holds so many words
    if assigns.len() > u32::MAX as usize {
        return Err(Message::OutOfMemory);
    }
    let seed = Seed::random(rt).unwrap_or(Seed::of(0));
    match Setup::read(operands, names(rt)?, assigns, separator) {
        Ok(setup) => Ok(
            setup
                .numbered(run.numbers)
                .randomized(random_seed(rt, run))
                .seeded(seed),
        ),
        // the names ascend, so it is a pair that is refused
        Err(error) => Err(Message::Unspelled(error.pair)),
    }
}
