//! Values one trade step by step, and prints the worked figures and a day of two accounts.
#![tactic(auto)]

use std::io;

mod day;
mod example_trade;
mod list;
mod report;
mod trade;
mod worked;

fn main(rt: HostRuntime) -> io::Result<()> {
    list::all_figures_stand();
    example_trade::show_trade(&rt)?;
    println!(&rt; "")?;
    worked::show_figures(&rt)?;
    println!(&rt; "")?;
    day::show_day(&rt)
}
