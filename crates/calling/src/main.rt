//! An example of a program that calls the libraries. The program reads a system from standard input. The program writes
//! the size of this system, the size of the smallest equivalent system, and the blocks of states before the first round
//! of refinement and after each round that splits a block. The program also writes whether the system is equivalent to
//! a system that describes a buffer for one element. In this example, two systems are equivalent if they are branching
//! bisimilar.
#![tactic(auto)]

ghost use Rattle.std.specs.Prelude.{◌≡◌, ◌↔◌, ◌≤◌, IsTrue, IfOk};
ghost use Rattle.theory.specs.System.{System, IsSystem};
ghost use Rattle.theory.specs.Bisimulation.{Equivalent};
ghost use Rattle.theory.specs.declared.relation.Relation.TheVariants.{Branching};
ghost use Rattle.lts.specs.Lts.{system_of};
ghost use Rattle.lts.specs.Union.{FitTogether};

use autfmt::{Fault, FromRead, Limits, SliceSource, Source, read};
use lts::{Counter, Lts, Memory};
use quotient::{Relation, equivalent, minimise};
use refine::{Partition, round};
use std::alloc::Global;
use std::io;

/// A system that describes a buffer for one element.
const BUFFER: &[u8] = b"des (0, 2, 2)\n(0, put, 1)\n(1, get, 0)\n";

/// The numbers of states and transitions of a system.
#[derive(Clone, Copy)]
struct Size {
    states: u32,
    transitions: u32,
}

/// The results that the program writes about a system.
#[derive(Drop)]
struct Findings {
    given: Size,
    smallest: Size,
    as_wanted: bool,
    /// The blocks before the first round, and the blocks after each round that splits a block.
    rounds: Vec<Partition>,
}

fn size_of(system: &Lts<Counter>) -> Size
    ensures { result.states ≡ system.now.states }
{
    Size {
        states: system.states(),
        transitions: system.edges(),
    }
}

/// Minimises the system `given`, and checks whether it is equivalent to the system `wanted`.
fn examine(alloc: Global, given: &Lts<Counter>, wanted: &Lts<Counter>) -> Result<Findings, Memory>
    requires fit { FitTogether given.now wanted.now }
    ensures smallest { IfOk result (λ found. (B : System) →
        IsSystem B → Equivalent Branching (system_of given.now) B →
        found.smallest.states ≤ B.states) }
    ensures verdict { IfOk result (λ found.
        IsTrue found.as_wanted
        ↔ Equivalent Branching (system_of given.now) (system_of wanted.now)) }
{
    let smallest = minimise(alloc, given, Relation::Branching, &mut Counter::new())?;
    let as_wanted = equivalent(
        alloc,
        given,
        wanted,
        Relation::Branching,
        &mut Counter::new(),
    )?;
    Ok(Findings {
        given: size_of(given),
        smallest: size_of(&smallest),
        as_wanted,
        rounds: rounds_of(alloc, given)?,
    })
}

/// Returns the blocks before the first round of refinement for branching bisimilarity, and the blocks after each round
/// that splits a block.
fn rounds_of(alloc: Global, system: &Lts<Counter>) -> Result<Vec<Partition>, Memory> {
    system.invariants();
    let mut rounds = Vec::new(alloc);
    let mut blocks = Partition::one(alloc, system.states())?;
    for _ in 0..system.states() {
        let split = round::<refine::Branching, Counter>(
            alloc,
            system,
            &blocks,
            &mut Counter::new(),
        )?;
        let is_stable = split.count() == blocks.count();
        rounds.push(blocks)?;
        if is_stable {
            break;
        }
        blocks = split;
    }
    Ok(rounds)
}

/// Reads a system from the source (the object from which the input is read), and computes the results about this
/// system. Returns the errors of `read`, and the error `Memory` if an allocation fails.
fn examine_text<R: Source>(alloc: Global, source: &mut R) -> Result<Findings, Fault>
    requires { R.failures source.old ≡ 0 }
{
    let lim = Limits::file();
    let given = read(alloc, source, &lim)?;
    let wanted = read(alloc, &mut SliceSource::new(BUFFER, None), &lim)?;
    Ok(examine(alloc, &given, &wanted)?)
}

fn main(rt: HostRuntime) -> io::Result<()> {
    match examine_text(rt.alloc(), &mut FromRead::new(rt.stdin())) {
        Ok(found) => {
            let (given, smallest) = (found.given, found.smallest);
            println!(rt;
                "{} states, {} transitions",
                given.states, given.transitions
            )?;
            println!(rt;
                "smallest: {} states, {} transitions",
                smallest.states, smallest.transitions
            )?;
            println!(rt; "as wanted: {}", found.as_wanted)?;
            for (round, blocks) in found.rounds.iter().enumerate() {
                println!(rt; "blocks after round {round}: {:?}", blocks.blocks())?;
            }
            Ok(())
        }
        Err(fault) => println!(rt; "{fault}"),
    }
}
