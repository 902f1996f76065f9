// What is done before BEGIN: the operands, the separator of fields, and the host's own assignments.
ghost use Rattle.awk_input.specs.Hosts.{IsHost, can_set};
ghost use Rattle.awk_machine.specs.Begins as machine;
ghost use Rattle.awk_machine.specs.Begins.{separators, set_at_start};
ghost use Rattle.awk_machine.specs.Operators.{of_count};
ghost use Rattle.awk_machine.specs.Pieces as target;
ghost use Rattle.awk_machine.specs.Pieces.{Piece, nowhere};
ghost use Rattle.awk_machine.specs.State.{Given};
ghost use Rattle.awk_program.specs.Program.{global};
ghost use Rattle.awk_program.specs.Slots.{Text, name_of};
ghost use Rattle.awk_run.specs.Starts.{IsStart, Prepares, assigning};
ghost use Rattle.awk_store.specs.Acts.{Acts};
ghost use Rattle.awk_streams.specs.Tables.{Table};
ghost use Rattle.awk_streams.specs.Tasks.{goes_on};
ghost use Rattle.awk_text.specs.Escapes.{unescaped};
ghost use Rattle.std.specs.Fmt.{decimal};
ghost use Rattle.std.specs.Prelude.{List, [], codes, if◌then◌else◌, length, option_copied, pos, true, ◌++◌, ◌+◌, ◌∷◌};
ghost use Rattle.std.specs.Prelude.{◌≡◌};

use awk_forms::Context;
use awk_hash::Seed;
use awk_input::Host;
use awk_program::{Own, Variable};
use awk_store::Store;
use awk_store::elements::set_element;
use awk_store::variables::set_variable;
use awk_streams::halt::Halt;
use awk_text::escape::unescape;
use awk_text::octets::Octets;
use awk_text::place::Place;
use awk_text::value::Value;
use itoa::Buffer;
use std::alloc::Global;

/// What a run is started with.
#[derive(Clone, Copy)]
pub struct Start<'a> {
    /// The operands, in their order
    pub operands: &'a [Octets],
    /// The names in the environment
    pub environment: &'a [Octets],
    /// The host's own assignments, each a name and a text
    pub assigns: &'a [(Octets, Octets)],
    /// The separator of fields that the host gives, if it does
    pub separator: Option<&'a Octets>,
    /// Whether the script names ENVIRON
    pub names_environ: bool,
    /// What the tables of the run hash by
    pub seed: Seed,
}

/// Sets the element of ARGV with this number.
fn set_argument(alloc: Global, store: &mut Store, n: u64, text: &[u8]) -> Result<(), Halt>
    ensures { (g : Given) (t : Table) →
        Acts g (set_at_start (target.Element (global (codes "ARGV")) (decimal n) nowhere) (Value.Input text.now))
        goes_on (store.old, t) result (store.new, t) }
{
    let copy = Vec::from_slice(alloc, text)?;
    let place = Place { line: 0, column: 0 };
    let array = Variable::Global(Own::Argv.slot());
    let mut buffer = Buffer::new();
    let key = buffer.format(n).as_bytes();
    set_element(store, place, array, key, Value::Input(Octets::new(copy)))
}

/// Sets one of awk's own variables to a number or a text.
fn set_own(store: &mut Store, name: Own, value: Value) -> Result<(), Halt>
    ensures { (g : Given) (t : Table) →
        Acts g (set_at_start (target.Variable (global (name_of name))) value) goes_on (store.old, t) result
        (store.new, t) }
{
    let place = Place { line: 0, column: 0 };
    set_variable(store, Variable::Global(name.slot()), place, value)
}

/// Sets the elements of ARGV for the operands, from 1 on.
fn set_operands(alloc: Global, store: &mut Store, operands: &[Octets]) -> Result<(), Halt>
    ensures { (g : Given) (t : Table) (k : List Piece)
        → Prepares g (machine.operands 1 operands.now ++ k)
        (set_at_start (target.Variable (global (codes "ARGC"))) (of_count (length operands.now + 1)) ∷ k)
        (store.old, t) result (store.new, t) }
{
    for n in 0..operands.len() {
        set_argument(alloc, store, n as u64 + 1, operands[n].bytes())?;
    }
    Ok(())
}

/// How many elements ARGV has: one for each operand, and the one for the program.
fn argument_count(operands: &[Octets]) -> i64
    ensures { result ≡ pos (length operands.now + 1) }
{
    (operands.len() + 1) as i64
}

/// Sets ARGV and ARGC.
fn set_arguments(alloc: Global, store: &mut Store, operands: &[Octets]) -> Result<(), Halt>
    ensures { (g : Given) (t : Table) (k : List Piece) →
        Prepares g (machine.operands 0 (codes "awk" ∷ operands.now) ++ k) k (store.old, t) result (store.new, t) }
{
    set_argument(alloc, store, 0, b"awk".as_slice())?;
    set_operands(alloc, store, operands)?;
    set_own(store, Own::Argc, Value::Num(argument_count(operands)))
}

/// Sets FS to the separator that the host gives, if it does.
fn set_separator(alloc: Global, store: &mut Store, separator: Option<&Octets>) -> Result<(), Halt>
    ensures { (g : Given) (t : Table) (k : List Piece) →
        Prepares g (separators (option_copied separator.entry) ++ k) k (store.old, t) result (store.new, t) }
{
    let Some(text) = separator else {
        return Ok(());
    };
    let Ok(made) = unescape(alloc, text.bytes()) else {
        return Err(Halt::Memory);
    };
    set_own(store, Own::Fs, Value::Input(Octets::new(made)))
}

/// Sets the variable of this name, which the host may set. Where no variable of the script has the name, nothing
/// changes.
fn assign(
    alloc: Global,
    host: &Host,
    store: &mut Store,
    name: &[u8],
    text: &[u8],
) -> Result<(), Halt>
    requires { can_set host.now name.now ≡ true }
    ensures { (g : Given) (t : Table) → IsHost host.now g →
        Acts g (set_at_start (target.Variable (global name.now)) (Value.Input (unescaped text.now))) goes_on
        (store.old, t) result (store.new, t) }
{
    let Some(slot) = host.slot_of(name) else {
        return Ok(());
    };
    let Ok(made) = unescape(alloc, text) else {
        return Err(Halt::Memory);
    };
    let place = Place { line: 0, column: 0 };
    set_variable(
        store,
        Variable::Global(slot),
        place,
        Value::Input(Octets::new(made)),
    )
}

/// Does one of the host's own assignments, unless it is to a name that the host may not set.
fn assign_pair(
    alloc: Global,
    host: &Host,
    store: &mut Store,
    pair: &(Octets, Octets),
) -> Result<(), Halt>
    ensures { (g : Given) (t : Table) (k : List Piece) (rest : List (Text × Text)) → IsHost host.now g
        → Prepares g (assigning g.can_assign (pair.now ∷ rest) ++ k) (assigning g.can_assign rest ++ k) (store.old, t)
        result (store.new, t) }
{
    if !host.can_assign(pair.0.bytes()) {
        return Ok(());
    }
    assign(alloc, host, store, pair.0.bytes(), pair.1.bytes())
}

/// Does the host's own assignments, in their order.
fn assign_all(
    alloc: Global,
    host: &Host,
    store: &mut Store,
    pairs: &[(Octets, Octets)],
) -> Result<(), Halt>
    ensures { (g : Given) (t : Table) (k : List Piece) → IsHost host.now g →
        Prepares g (assigning g.can_assign pairs.now ++ k) k (store.old, t) result (store.new, t) }
{
    for pair in pairs {
        assign_pair(alloc, host, store, pair)?;
    }
    Ok(())
}

/// Does all that is done before the environment is looked at.
pub fn prepare(cx: &Context<'_>, start: &Start<'_>, store: &mut Store) -> Result<(), Halt>
    ensures { (g : Given) (t : Table) (k : List Piece) → IsHost cx.now.host.now g → IsStart start.now g
        → Prepares g (machine.operands 0 (codes "awk" ∷ g.operands) ++ separators g.separator ++ machine.assigns g ++ k)
        k (store.old, t) result (store.new, t) }
{
    set_arguments(cx.alloc, store, start.operands)?;
    set_separator(cx.alloc, store, start.separator)?;
    assign_all(cx.alloc, cx.host, store, start.assigns)
}

/// The names of the environment that are looked up: all where the script names ENVIRON, and else none.
pub fn looked_up<'a>(start: &Start<'a>) -> &'a [Octets]
    ensures { result.now ≡ (if start.now.names_environ then start.now.environment.now else []) }
{
    if start.names_environ {
        start.environment
    } else {
        &[]
    }
}
