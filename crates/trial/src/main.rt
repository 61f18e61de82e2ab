// Generated queries, planned under several crews, and held cell by cell to an enumeration of all trees that shares no code with the
// planner; and queries planned under many crews, which must all leave the same. Prints counts only.
#![tactic(auto)]

mod by_set;
mod compare;
mod crews;
mod enumerate;
mod generate;
mod group;
mod hold;
mod input;
mod plan_in;
mod play;
mod random;

use random::Random;
use std::io;

fn report(rt: &impl Print, tally: &compare::Tally) -> io::Result<()> {
    println!(rt; "queries {}", tally.queries)?;
    println!(rt; "plans {}", tally.plans)?;
    println!(rt; "refused {}", tally.refused)?;
    for what in compare::ALL_COMPARED {
        println!(rt; "{} {}", what, tally.of(what))?;
    }
    println!(rt; "comparisons {}", tally.comparisons)?;
    println!(rt; "differences {}", tally.differences)
}

fn report_crews(rt: &impl Print, tally: &crews::Tally) -> io::Result<()> {
    println!(rt; "queries of twelve crews {}", tally.queries)?;
    println!(rt; "their plans {}", tally.plans)?;
    println!(rt; "their comparisons {}", tally.comparisons)?;
    println!(rt; "their differences {}", tally.differences)?;
    println!(rt; "their log entries {}", tally.entries)?;
    println!(rt; "faults in these {}", tally.faults)
}

fn main(rt: HostRuntime) -> io::Result<()> {
    let alloc = rt.alloc();
    let mut random = Random::new(20_261_115);
    report(&rt, &hold::all_queries(alloc, &mut random)?)?;
    report_crews(&rt, &crews::all_queries(alloc, &mut random)?)
}
