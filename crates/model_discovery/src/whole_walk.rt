//! Whole walks.
ghost use Rattle.std.specs.Prelude.{◌≡◌, ℕ, Err, IfOk, IfErr, MatchResult};
ghost use Rattle.model_discovery.specs.Map.{Answer, Exception};
ghost use Rattle.model_discovery.specs.Chain.{IsChain, IsOutcome};
ghost use Rattle.model_discovery.specs.WalkState.{registers};

use crate::fault::WalkFault;
use crate::walk::{Next, Walk};

/// The register map of a device that answers each read the same at any time.
pub trait RegisterMap {
    /// What a read of two registers from an address on is answered.
    ghost answers: { Self → ℕ → Answer };

    /// Reads the two registers from `start` on. An error is an exception, with its code.
    fn read(&self, start: u16) -> Result<[u16; 2], u8>
        ensures { MatchResult result (λ regs. answers self.now start ≡ registers regs)
            (λ code. answers self.now start ≡ Exception code) };
}

/// Walks over a whole map, and gives the walk with its chain. An error is the map's first fault.
pub fn discover<M: RegisterMap>(map: &M) -> Result<Walk, WalkFault>
    ensures chain { IfOk result (λ walk. IsChain (M.answers map.now) walk.models) }
    ensures fault { IfErr result (λ fault. IsOutcome (M.answers map.now) (Err fault)) }
{
    let mut walk = Walk::new();
    while let Next::Read { start, .. } = walk.next() {
        match map.read(start) {
            Ok(regs) => walk.took(&regs)?,
            Err(code) => walk.refused(code)?,
        }
    }
    Ok(walk)
}
