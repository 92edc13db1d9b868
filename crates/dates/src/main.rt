//! Writes the month and the year of the first date in each line of standard input that has one.
#![tactic(auto)]

use regex_bites::{RegexBuilder, Searcher};

fn main(rt: HostRuntime) -> anyhow::Result<()> {
    let mut builder = RegexBuilder::new(rt.alloc(), r"(?<year>\d{4})-(?<month>\d{2})")?;
    let mut dates = Searcher::new(builder.prefilter(true).build()?)?;
    for line in rt.lines(rt.alloc()) {
        let line = line?;
        if let Some(date) = dates.captures(&line)? {
            let text = |name: &str| match date.name(name) {
                Some(group) => group.as_str(),
                None => "",
            };
            println!(rt; "month {} of {}", text("month"), text("year"))?;
        }
    }
    Ok(())
}
