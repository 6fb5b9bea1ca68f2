//! Laws of the definitions in `specs/`.
ghost use Rattle.std.specs.Prelude.{◌≡◌, ◌+◌, ◌≤◌, ℕ, List, length, All, Result, IfSome, IsSome};
ghost use Rattle.der_models.specs.Layout.{capacity_id, ac_controls_id, header, least_length};
ghost use Rattle.model_discovery.specs.declared.found.Found.{Found as FoundModel};
ghost use Rattle.model_discovery.specs.declared.fault.WalkFault.{WalkFault as Fault};
ghost use Rattle.model_discovery.specs.Map.{map_registers, Answer};
ghost use Rattle.model_discovery.specs.Chain.{models_max, next_header, first_of, IsChain, IsOutcome};

/// A map has no more than one outcome: a chain, or a fault.
pub fn one_outcome()
    ensures { (map : ℕ → Answer) (one other : Result (List FoundModel) Fault)
        → IsOutcome map one → IsOutcome map other → one ≡ other }
{}

/// What every chain has: at most 128 models; no header that needs a register past 65535; for each
/// identifier that is used a first model that is long enough; and models 702 and 704.
pub fn each_chain()
    ensures few { (map : ℕ → Answer) (models : List FoundModel) → IsChain map models
        → length models ≤ models_max }
    ensures within_map { (map : ℕ → Answer) (models : List FoundModel) → IsChain map models
        → All (λ model. next_header model + header ≤ map_registers) models }
    ensures long_enough { (map : ℕ → Answer) (models : List FoundModel) (id : ℕ) → IsChain map models
        → IfSome (first_of id models) (λ model. least_length id ≤ model.length) }
    ensures present { (map : ℕ → Answer) (models : List FoundModel) → IsChain map models
        → IsSome (first_of capacity_id models) × IsSome (first_of ac_controls_id models) }
{}
