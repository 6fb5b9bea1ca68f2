//! The walk over a register map.
ghost use Rattle.std.specs.Prelude.{◌≡◌, ℕ, ◌+◌, ◌<◌, ◌≤◌, List, [], ◌∷◌, length, drop, slice_index, All, IsSome, IfSome, Err, IfErr, if◌then◌else◌};
ghost use Rattle.std.specs.Result.{result_err};
ghost use Rattle.der_models.specs.Layout.{capacity_id, ac_controls_id, header, least_block};
ghost use Rattle.model_discovery.specs.declared.found.Found.{Found as FoundModel};
ghost use Rattle.model_discovery.specs.Map.{map_registers, read_size, Answer, Exception};
ghost use Rattle.model_discovery.specs.Chain.{models_max, bases, first_header, next_header, first_of, model_fault, AreSound, absent_model, IsChain, IsOutcome};
ghost use Rattle.model_discovery.specs.WalkState.{Reading, place_at_bases, state_after_header};
ghost use Rattle.model_discovery.specs.Stage.{place_of, state_of, IsStage, IsWalk};

use crate::fault::WalkFault;
use crate::found::Found;
use arrayvec::ArrayVec;
use der_models::identifiers::{AC_CONTROLS, CAPACITY};
use der_models::{HEADER, least_length};
use std::marker::Model;

/// The addresses at which a map may start, in the order in which they're tried.
const BASES: [u16; 3] = [40000, 50000, 0];

/// The registers 'SunS', which mark the start of a map.
const MARK: [u16; 2] = [0x5375, 0x6E53];

/// How many registers each read asks for: the mark has two, and so has a model's header.
const READ_SIZE: u16 = 2;

/// The identifier that ends the chain.
const END_MARK: u16 = 0xFFFF;

/// How many models a chain may have.
const MODELS_MAX: usize = 128;

/// How many registers a map has: their addresses are below this number.
const MAP_REGISTERS: u32 = 0x1_0000;

/// What a walk asks for next.
#[derive(Clone, Copy, Debug, PartialEq, Eq)]
pub enum Next {
    /// A read of registers.
    Read {
        /// The address of the first.
        start: u16,
        /// How many: always two.
        count: u16,
    },
    /// Nothing: the walk is over.
    Done,
}

/// A walk over the SunSpec register map of a device, which finds the chain of its models. It makes no
/// reads itself: `next` says which is wanted, and `took` or `refused` tells its answer.
#[derive(Debug, Drop)]
pub struct Walk {
    stage: Stage,
    models: ArrayVec<Found, MODELS_MAX>,
}

#[derive(Clone, Copy, Debug)]
enum Stage {
    /// The mark is looked for at a base, by its place in `BASES`.
    Mark(usize),
    /// The header at this address is read next.
    Header(u16),
    /// The end mark was read, and the models that have to be there are.
    Finished,
    /// The map has this fault.
    Failed(WalkFault),
}

impl Model for Walk {
    ghost use Rattle.model_discovery.specs.WalkState.{WalkState};

    ghost Value = { WalkState };

    ghost use Rattle.model_discovery.specs.Stage.{state_of, IsWalk};

    ghost view = { λ walk. state_of walk.stage walk.models.items };

    ghost invariant = { λ walk. IsWalk walk.stage walk.models.items };
}

impl Walk {
    ghost use Rattle.model_discovery.specs.WalkState.{WalkState, IsOn, Answers, next_read, walk_after, fault_of, TakesAnswer, TakesRegisters, registers};

    /// A walk that begins at the first base.
    pub fn new() -> Walk
        ensures begins { result ≡ record { place = place_at_bases bases; models = [] } }
        ensures on_map { (map : ℕ → Answer) → IsOn map result }
    {
        Walk {
            stage: Stage::Mark(0),
            models: ArrayVec::new(),
        }
    }

    /// The read that is wanted next, of a mark or a model's header. Done at the end of the chain and after
    /// a fault. At the end of the chain models 702 and 704 are there, and over a map the chain is that
    /// map's.
    #[tactic(auto, using(crate::proofs::Facts::none_absent, crate::proofs::Steps::chain_on))]
    pub fn next(&self) -> Next
        ensures next { result ≡ next_read self.now.place }
        ensures complete { result ≡ Next.Done → fault_of self.now.place ≡ None
            → IsSome (first_of capacity_id self.now.models)
            × IsSome (first_of ac_controls_id self.now.models) }
        ensures chain { (map : ℕ → Answer) → IsOn map self.now → fault_of self.now.place ≡ None
            → result ≡ Next.Done → IsChain map self.now.models }
    {
        let start = match self.stage {
            Stage::Mark(place) => BASES[place],
            Stage::Header(address) => address,
            Stage::Finished | Stage::Failed(_) => return Next::Done,
        };
        Next::Read {
            start,
            count: READ_SIZE,
        }
    }

    /// Takes the two registers of the read that was wanted. Each error is the map's first fault. After
    /// an error every later call answers it again.
    pub fn took(&mut self, regs: &[u16]) -> Result<(), WalkFault>
        requires { TakesRegisters self.old.place regs.now }
        ensures step { self.new ≡ walk_after self.old (registers regs.now) }
        ensures fault { result_err result ≡ fault_of self.new.place }

        // Over a map: the walk goes on over it, and an error is that map's outcome.
        ensures on_map { (map : ℕ → Answer) → IsOn map self.old
            → Answers map self.old.place (registers regs.now) → IsOn map self.new }
        ensures outcome { (map : ℕ → Answer) → IsOn map self.old
            → Answers map self.old.place (registers regs.now)
            → IfErr result (λ fault. IsOutcome map (Err fault)) }
    {
        self.tell_registers(regs);
        self.outcome()
    }

    /// Takes the exception code with which the read that was wanted was refused. At a mark the next
    /// base is tried, whatever the code. Each error is the map's first fault. After an error every
    /// later call answers it again.
    pub fn refused(&mut self, code: u8) -> Result<(), WalkFault>
        requires { TakesAnswer self.old.place }
        ensures step { self.new ≡ walk_after self.old (Exception code) }
        ensures fault { result_err result ≡ fault_of self.new.place }

        // Over a map: the walk goes on over it, and an error is that map's outcome.
        ensures on_map { (map : ℕ → Answer) → IsOn map self.old
            → Answers map self.old.place (Exception code) → IsOn map self.new }
        ensures outcome { (map : ℕ → Answer) → IsOn map self.old
            → Answers map self.old.place (Exception code)
            → IfErr result (λ fault. IsOutcome map (Err fault)) }
    {
        self.tell_exception(code);
        self.outcome()
    }

    /// The models found so far, in the order in which they stand. Whatever the walk was answered, there are
    /// at most 128, each leaves room for a header behind it within the 65,536 registers, and the first of
    /// each identifier from 701 to 704 is as long as `least_length` says.
    #[tactic(auto, using(crate::proofs::Facts::few_models, crate::proofs::Facts::within_map))]
    pub fn chain(&self) -> &[Found]
        ensures chain { result.now ≡ self.now.models }
        ensures sound { AreSound self.now.models }
        ensures few { length self.now.models ≤ models_max }
        ensures within_map { All (λ model. next_header model + header ≤ map_registers) self.now.models }
    {
        &self.models
    }

    /// The first model of an identifier. None where the chain so far has none. Whatever the walk was
    /// answered, the registers that are used of the model are its own, and a read of them from its start on
    /// stays within the 65,536 registers: of 702 these are 46, and of 704 they are 55.
    pub fn find(&self, id: u16) -> Option<Found>
        ensures first { result ≡ first_of id self.now.models }
        ensures long_enough { IfSome result (λ model. least_block id ≤ header + model.length) }
        ensures within_map { IfSome result (λ model. model.start + least_block id ≤ map_registers) }
    {
        first_of(&self.models, id)
    }

    fn tell_registers(&mut self, regs: &[u16])
        requires { TakesRegisters self.old.place regs.now }
        ensures { self.new ≡ walk_after self.old (registers regs.now) }
    {
        self.stage = match self.stage {
            Stage::Mark(place) => after_base(place, regs == MARK.as_slice()),
            Stage::Header(start) => {
                let model = Found {
                    id: regs[0],
                    start,
                    length: regs[1],
                };
                after_header(&mut self.models, model)
            }
            over => over,
        };
    }

    fn tell_exception(&mut self, code: u8)
        requires { TakesAnswer self.old.place }
        ensures { self.new ≡ walk_after self.old (Exception code) }
    {
        self.stage = match self.stage {
            Stage::Mark(place) => after_base(place, false),
            Stage::Header(_) => Stage::Failed(WalkFault::Exception(code)),
            over => over,
        };
    }

    fn outcome(&self) -> Result<(), WalkFault>
        ensures { result_err result ≡ fault_of self.now.place }
    {
        match self.stage {
            Stage::Failed(fault) => Err(fault),
            Stage::Mark(_) | Stage::Header(_) | Stage::Finished => Ok(()),
        }
    }
}

/// The stage after a base, by its place, that has the mark or not.
fn after_base(place: usize, marked: bool) -> Stage
    requires { place < length bases }
    ensures step { place_of result ≡ (if marked
        then Reading (first_header (slice_index bases place))
        else place_at_bases (drop (place + 1) bases)) }
    ensures in_range { (models : List FoundModel) → IsStage result models }
{
    if marked {
        Stage::Header(BASES[place] + READ_SIZE)
    } else if place + 1 < BASES.len() {
        Stage::Mark(place + 1)
    } else {
        Stage::Failed(WalkFault::NoMark)
    }
}

/// The stage after the header of a model, which is taken in where it isn't the end mark or at fault.
fn after_header(models: &mut ArrayVec<Found, MODELS_MAX>, model: Found) -> Stage
    requires in_map { model.start + header ≤ map_registers }
    requires sound { AreSound models.old.items }
    ensures step { state_of result models.new.items ≡ state_after_header models.old.items model }
    ensures keeps { IsWalk result models.new.items }
{
    if model.id == END_MARK {
        return match absent_model(models) {
            None => Stage::Finished,
            Some(id) => Stage::Failed(WalkFault::Missing(id)),
        };
    }
    match model_fault(models, &model) {
        None => {
            models.push(model);
            Stage::Header(model.start + HEADER + model.length)
        }
        Some(fault) => Stage::Failed(fault),
    }
}

/// What is at fault with a model behind these.
fn model_fault(before: &[Found], model: &Found) -> Option<WalkFault>
    ensures { result ≡ model_fault before.now model.now }
{
    let next = u32::from(model.start) + u32::from(HEADER) + u32::from(model.length);
    if before.len() >= MODELS_MAX {
        Some(WalkFault::TooManyModels)
    } else if first_of(before, model.id).is_none() && model.length < least_length(model.id) {
        Some(WalkFault::TooShort {
            id: model.id,
            length: model.length,
        })
    } else if next + u32::from(HEADER) > MAP_REGISTERS {
        Some(WalkFault::ChainLeaves(next))
    } else {
        None
    }
}

/// The first model that has to be there and isn't.
fn absent_model(models: &[Found]) -> Option<u16>
    ensures { result ≡ absent_model models.now }
{
    [CAPACITY, AC_CONTROLS]
        .into_iter()
        .find(|&id| first_of(models, id).is_none())
}

/// The first model of an identifier.
fn first_of(models: &[Found], id: u16) -> Option<Found>
    ensures { result ≡ first_of id models.now }
{
    models.iter().copied().find(|model| model.id == id)
}
