// Why a call gives no answer.
use awk_ere::EreError;
use awk_text::fault::Fault;
use awk_tokens::SyntaxError;
use box_policy::error::PolicyError;
use box_world::ask::Stop;
use std::alloc::{AllocError, AllocFailed};
use thiserror::Error;

/// Why a call gives no answer. What a call refuses is an answer of its own, which a row can name.
#[derive(Clone, Copy, Debug, Drop, Error)]
pub enum Problem {
    #[error("this is not a row")]
    NoRow,
    #[error("there is no such call")]
    NoCall,
    #[error("an argument is missing or of another sort")]
    NoArgument,
    #[error("two ways give two answers")]
    TwoAnswers,
    #[error("the first {0} bytes are not read well")]
    Prefix(usize),
    #[error("the world did not do it")]
    NotDone,
    #[error("the words of the host make no setup")]
    NoSetup,
    #[error("F{} {}", .0.code(), .0.text())]
    Fault(#[from] Fault),
    #[error(transparent)]
    Pattern(#[from] EreError),
    #[error(transparent)]
    Policy(#[from] PolicyError),
    #[error(transparent)]
    Script(#[from] SyntaxError),
}

impl From<Stop> for Problem {
    fn from(stop: Stop) -> Problem {
        match stop {
            Stop::Memory => Problem::Fault(Fault::Memory),
            Stop::Log => Problem::Fault(Fault::Log),
        }
    }
}

impl From<AllocError> for Problem {
    fn from(_error: AllocError) -> Problem {
        Problem::Fault(Fault::Memory)
    }
}

impl<T: Drop> From<AllocFailed<T>> for Problem {
    fn from(_error: AllocFailed<T>) -> Problem {
        Problem::Fault(Fault::Memory)
    }
}
