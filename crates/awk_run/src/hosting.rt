// The host of a run: the operands' words, and which of the script's names it may set.
ghost use Rattle.std.specs.Prelude.{◌≡◌, map, IfOk, OnOk, if◌then◌else◌};
ghost use Rattle.awk_resolve.specs.Assigns as kinds;
ghost use Rattle.awk_parse.specs.Scripts.{IsScript};
ghost use Rattle.awk_program.specs.View.{names_of};
ghost use Rattle.awk_input.specs.Hosts.{IsHost};
ghost use Rattle.awk_run.specs.Givens.{given_of};
ghost use Rattle.awk_run.specs.Hosting.{host_of, with_functions, with_variables, with_words};

use crate::Setup;
use awk_input::{Host, HostUse};
use awk_parse::Script;
use awk_program::Function;
use awk_text::Memory;
use awk_text::octets::Octets;
use std::alloc::{AllocError, Global};

/// Adds the words that the run was started with.
fn add_words(alloc: Global, host: &mut Host, words: &[Octets]) -> Result<(), Memory>
    ensures { OnOk result (host.new ≡ with_words words.now host.old) }
{
    for word in words {
        host.add_word(word.copy(alloc)?)?;
    }
    Ok(())
}

/// Whether the host may set the variable of this name. Takes no memory.
fn can_assign(script: &Script, name: &[u8]) -> bool
    requires { IsScript script.now }
    ensures { result ≡ kinds.can_assign script.now.kinds name.now }
{
    script.can_assign(name)
}

/// What the variable of a script with this slot and name is to the host. Takes no memory.
fn use_of(script: &Script, slot: u32, name: &[u8]) -> HostUse
    requires { IsScript script.now }
    ensures { result ≡ (if kinds.can_assign script.now.kinds name.now then HostUse.Variable slot else HostUse.Barred) }
{
    if can_assign(script, name) {
        HostUse::Variable(slot)
    } else {
        HostUse::Barred
    }
}

/// Says what the variables of a script are, by their slots.
fn add_variables(alloc: Global, host: &mut Host, script: &Script) -> Result<(), Memory>
    requires { IsScript script.now }
    ensures { OnOk result
        (host.new ≡ with_variables (kinds.can_assign script.now.kinds) 0 (names_of script.now.program) host.old) }
{
    let variables = script.program().variables.as_slice();
    for i in 0..variables.len() {
        let Ok(slot) = u32::try_from(i) else {
            return Err(AllocError);
        };
        let name = &variables[i].text;
        let what = use_of(script, slot, name.bytes());
        host.add_name(name.copy(alloc)?, what)?;
    }
    Ok(())
}

/// Bars the names of a script's functions.
fn add_functions(alloc: Global, host: &mut Host, functions: &[Function]) -> Result<(), Memory>
    ensures { OnOk result (host.new ≡ with_functions (map (λ f. f.name) functions.now) host.old) }
{
    for function in functions {
        host.add_name(function.name.copy(alloc)?, HostUse::Barred)?;
    }
    Ok(())
}

/// The host of a script's run, or `Memory` where memory is refused.
fn told(alloc: Global, script: &Script, setup: &Setup, steps: u64) -> Result<Host, Memory>
    requires { IsScript script.now }
    ensures { IfOk result (λ host. host ≡ host_of script.now setup.now steps) }
{
    let mut host = Host::new(alloc, steps, setup.numbers(), setup.random_seed());
    add_words(alloc, &mut host, setup.operands())?;
    add_variables(alloc, &mut host, script)?;
    add_functions(alloc, &mut host, script.program().functions.as_slice())?;
    Ok(host)
}

/// The host of a script's run, which knows what plain awk is given; or `Memory` where memory is refused.
pub fn host(alloc: Global, script: &Script, setup: &Setup, steps: u64) -> Result<Host, Memory>
    requires { IsScript script.now }
    ensures { IfOk result (λ host. IsHost host (given_of script.now setup.now steps)) }
{
    told(alloc, script, setup, steps)
}
