// How statements end, and how a statement's end ends a list of statements, or a loop.
ghost use Rattle.awk_streams.specs.Ends as spec;
ghost use Rattle.std.specs.Prelude.{◌≡◌};

use awk_text::Memory;
use awk_text::value::Value;
use std::alloc::Global;

/// How a statement ends that is not halted.
#[derive(Drop)]
pub enum Flow {
    /// The next statement follows.
    On,
    /// `break`: the loop ends.
    Break,
    /// `continue`: the turn of the loop ends.
    Continue,
    /// `return`, without a value.
    Return,
    /// `return`, with a number, which lies here: so it takes no memory.
    ReturnNumber(i64),
    /// `return`, with another value. It lies elsewhere, since each statement hands a `Flow` back: so that is small.
    ReturnValue(Box<Value>),
}

impl Flow {
    ghost use Rattle.std.specs.Prelude.{List, IfOk};
    ghost use Rattle.awk_machine.specs.Pieces.{Piece};
    ghost use Rattle.awk_machine.specs.Statements.{to_leave, leave_with};
    ghost use Rattle.awk_streams.specs.Flows.{flows};

    /// `return` with this value.
    ///
    /// Fails where memory is refused. A number takes none.
    #[inline(always)]
    pub fn returning(alloc: Global, value: Value) -> Result<Flow, Memory>
        ensures { IfOk result (λ flow. (k : List Piece) → flows flow k ≡ leave_with value (to_leave k)) }
    {
        match value {
            Value::Num(number) => Ok(Flow::ReturnNumber(number)),
            _ => Ok(Flow::ReturnValue(Box::new(alloc, value)?)),
        }
    }
}

/// Whether the next statement follows. Takes no memory.
pub fn is_on(flow: &Flow) -> bool
    ensures { result ≡ spec.is_on flow.now }
{
    match flow {
        Flow::On => true,
        Flow::Break
        | Flow::Continue
        | Flow::Return
        | Flow::ReturnNumber(_)
        | Flow::ReturnValue(_) => false,
    }
}

/// How the loop ends that is around the statement, if it ends. Takes no memory.
pub fn end_of(flow: Flow) -> Option<Flow>
    ensures { result ≡ spec.end_of flow }
{
    match flow {
        Flow::On => None,
        Flow::Break => Some(Flow::On),
        Flow::Continue => None,
        Flow::Return => Some(Flow::Return),
        Flow::ReturnNumber(number) => Some(Flow::ReturnNumber(number)),
        Flow::ReturnValue(value) => Some(Flow::ReturnValue(value)),
    }
}
