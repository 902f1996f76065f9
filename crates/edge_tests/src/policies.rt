// A policy where memory may be refused: run with each allocation refused in turn.
use box_policy::error::PolicyError;
use box_policy::policy::Policy;

const Q0: &[u8] = b"version = 1
base = \"/w\"

[[rule]]
effect = \"allow\"
kind = \"write\"
match = \"/w/out/a\"

[[rule]]
effect = \"deny\"
kind = \"run\"
match = \"sort -r\"
";

#[test]
fn want_of_memory_is_told(rt: HostRuntime) {
    match Policy::read(rt.alloc(), Q0) {
        Ok(policy) => assert_eq!(rt; policy.count(), 2),
        Err(e) => assert_eq!(rt; (e.code, e.rule), (PolicyError::MEMORY, 0)),
    }
}
