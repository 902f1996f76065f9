// What is run, and what is refused before a run.
ghost use Rattle.std.specs.Prelude.{◌≡◌, ◌<◌, ◌^◌, List, length, None, IfOk, IfErr};
ghost use Rattle.awk_resolve.specs.Assigns.{can_assign};
ghost use Rattle.awk_parse.specs.Scripts.{IsScript};
ghost use Rattle.awk_tree.specs.Tree.{Entry};
ghost use Rattle.awkbox.specs.Accepted.{Accepted, IsRefused, IsScriptRefused, ReadsScript, first_barred};
ghost use Rattle.awkbox.specs.Bases.{IsBaseRefused};
ghost use Rattle.awkbox.specs.Scripts as spec;
ghost use Rattle.awkbox.specs.Scripts.{Spells};
ghost use Rattle.box_policy.specs.Rebased.{base_refusal, rebased};

use awk_numbers::number::Numbers;
use awk_parse::{Script, parse};
use awk_run::Setup;
use awk_text::octets::Octets;
use awk_tokens::{SyntaxError, tokens};
use box_policy::error::PolicyError;
use box_policy::policy::Policy;
use std::alloc::Global;
use thiserror::Error;

/// Why nothing was run: the policy, the script, or the `-v` pair of this number was refused.
#[derive(Clone, Copy, Debug, PartialEq, Eq, Drop, Error)]
pub enum Refusal {
    #[error("policy {0}")]
    Policy(PolicyError),
    #[error("script {0}")]
    Script(SyntaxError),
    #[error("assignment {0} U3")]
    Assign(u32),
}

/// The script that the bytes spell, by this profile.
pub(crate) fn read_script(
    alloc: Global,
    numbers: Numbers,
    script: &[u8],
) -> Result<Script, SyntaxError>
    ensures profile { IfOk result (λ s. s.numbers ≡ numbers) }
    ensures ok { IfOk result (ReadsScript script.now) }
    ensures spells { IfOk result (λ s. (items : List Entry) × Spells script.now items s) }
    ensures refused { IfErr result (IsScriptRefused numbers script.now) }
    ensures told { IfErr result (spec.IsScriptRefused numbers script.now) }
{
    let tokens = tokens(alloc, numbers, script)?;
    parse(alloc, numbers, tokens.as_slice())
}

/// Whether a host may set the variable of this name.
fn may_set(script: &Script, name: &[u8]) -> bool
    requires { IsScript script.now }
    ensures { result ≡ can_assign script.now.kinds name.now }
{
    script.can_assign(name)
}

/// The number of the first pair whose name may not be set, counted from 1.
fn first_barred(script: &Script, assigns: &[(Octets, Octets)]) -> Option<u32>
    requires script { IsScript script.now }
    requires few { length assigns.now < 2 ^ 32 }
    ensures { result ≡ first_barred script.now.kinds 1 assigns.now }
{
    let mut number = 0u32;
    for (name, _) in assigns {
        number += 1;
        if !may_set(script, name.bytes()) {
            return Some(number);
        }
    }
    None
}

/// A policy and a script that a run goes by. It is driven, or else released.
pub struct Prepared {
    pub(crate) policy: Policy,
    pub(crate) script: Script,
}

impl Prepared {
    /// The policy. Takes no memory.
    pub fn policy(&self) -> &Policy
        ensures { result.now ≡ self.now.policy }
    {
        &self.policy
    }

    /// The same script under the policy's rules with this base in place of its own, or the refusal of a base that no
    /// policy may have: so one policy serves many folders.
    pub fn with_base(self, alloc: Global, base: &[u8]) -> Result<Prepared, Refusal>
        requires { IsScript self.script }
        ensures base { IfOk result (λ prepared. base_refusal base.now ≡ None) }
        ensures policy { IfOk result (λ prepared. prepared.policy ≡ rebased base.now self.policy) }
        ensures same { IfOk result (λ prepared. prepared.script ≡ self.script) }
        ensures script { IfOk result (λ prepared. IsScript prepared.script) }
        ensures refused { IfErr result (IsBaseRefused base.now) }
    {
        let Prepared { policy, script } = self;
        match policy.with_base(alloc, base) {
            Ok(policy) => Ok(Prepared { policy, script }),
            Err(error) => {
                script.release();
                Err(Refusal::Policy(error))
            }
        }
    }

    /// Lets both go, where there is to be no run.
    pub fn release(self) {
        let Prepared {
            policy: _policy,
            script,
        } = self;
        script.release();
    }
}

/// The policy and the script that a run goes by, which is read by the setup's numbers, or the first refusal: the
/// policy's, then the script's, and then that of the first `-v` pair whose name may not be set.
pub fn prepare(
    alloc: Global,
    policy: &[u8],
    script: &[u8],
    setup: &Setup,
) -> Result<Prepared, Refusal>
    ensures ok { IfOk result
        (λ prepared. Accepted setup.now.numbers policy.now script.now setup.now.assigns prepared.policy
        prepared.script) }
    ensures script { IfOk result (λ prepared. IsScript prepared.script) }
    ensures refused { IfErr result (IsRefused setup.now.numbers policy.now script.now setup.now.assigns) }
{
    let policy = match Policy::read(alloc, policy) {
        Ok(policy) => policy,
        Err(error) => return Err(Refusal::Policy(error)),
    };
    let script = match read_script(alloc, setup.numbers(), script) {
        Ok(script) => script,
        Err(error) => return Err(Refusal::Script(error)),
    };
    match first_barred(&script, setup.assigns()) {
        Some(pair) => {
            script.release();
            Err(Refusal::Assign(pair))
        }
        None => Ok(Prepared { policy, script }),
    }
}
