// How far the main input is read, as it changes.
ghost use Rattle.std.specs.Prelude.{◌≡◌, true, None, Some, MatchOption};
ghost use Rattle.box_world.specs.Events as event;
ghost use Rattle.box_world.specs.Events.{Named, Standard};
ghost use Rattle.awk_store.specs.Changes.{with_main};
ghost use Rattle.awk_store.specs.Inputs.{main_of};
ghost use Rattle.awk_input.specs.Inputs.{after_operands, past_standard};

use awk_store::{CurrentInput, MainInput, Store};
use awk_text::octets::Octets;
use std::mem;

/// The main input has ended for good.
fn end(store: &mut Store)
    ensures { store.new ≡ with_main (record store.old.main { ended = true }) store.old }
{
    let mut main = store.replace_main(MainInput::new());
    main.ended = true;
    store.replace_main(main);
}

/// The standard input is read.
fn begin_standard(store: &mut Store)
    ensures { store.new ≡ with_main (record store.old.main { current = Some (Standard 0) }) store.old }
{
    let mut main = store.replace_main(MainInput::new());
    main.current = CurrentInput::Standard;
    store.replace_main(main);
}

/// No operand is left: the standard input is read, unless an operand named a file.
pub fn pass_operands(store: &mut Store)
    ensures { store.new ≡ with_main (after_operands store.old.main) store.old }
{
    if store.main().named {
        end(store);
    } else {
        begin_standard(store);
    }
}

/// The standard input is done with: it was all there is, unless an operand named it.
pub fn pass_standard(store: &mut Store)
    ensures { store.new ≡ with_main (past_standard store.old.main) store.old }
{
    let mut main = store.replace_main(MainInput::new());
    main.current = CurrentInput::Nothing;
    main.ended = !main.named;
    store.replace_main(main);
}

/// A part of the main input could not be read.
pub fn fail(store: &mut Store)
    ensures { store.new ≡ with_main (record store.old.main { failed = true }) store.old }
{
    let mut main = store.replace_main(MainInput::new());
    main.failed = true;
    store.replace_main(main);
}

/// Whether no stream is read now.
pub fn is_nothing(main: &MainInput) -> bool
    ensures { result ≡ true → (main_of main.now).current ≡ None }
{
    matches!(main.current, CurrentInput::Nothing)
}

/// Whether the standard input is read now.
pub fn is_standard(main: &MainInput) -> bool
    ensures { result ≡ true → (main_of main.now).current ≡ Some (Standard 0) }
{
    matches!(main.current, CurrentInput::Standard)
}

/// The next operand is the one at this place in ARGV.
pub fn move_to(store: &mut Store, position: u64)
    ensures { store.new ≡ with_main (record store.old.main { position = position }) store.old }
{
    let mut main = store.replace_main(MainInput::new());
    main.position = position;
    store.replace_main(main);
}

/// An operand has named an input.
pub fn name_input(store: &mut Store)
    ensures { store.new ≡ with_main (record store.old.main { named = true }) store.old }
{
    let mut main = store.replace_main(MainInput::new());
    main.named = true;
    store.replace_main(main);
}

/// Takes the text of the operand whose file is read out of the store, if one is; nothing is read then.
pub fn take_out(store: &mut Store) -> Option<Octets>
    ensures { MatchOption result (store.new ≡ store.old)
        (λ text. (store.old.main.current ≡ Some (Named event.OperandFile text))
        × (store.new ≡ with_main (record store.old.main { current = None }) store.old)) }
{
    let mut main = store.replace_main(MainInput::new());
    match mem::replace(&mut main.current, CurrentInput::Nothing) {
        CurrentInput::Operand(text) => {
            store.replace_main(main);
            Some(text)
        }
        other => {
            main.current = other;
            store.replace_main(main);
            None
        }
    }
}
