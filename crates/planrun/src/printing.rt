// The report's lines: a name, a space, a figure in decimal or a few words.
use console::answers::Meaning;
use model::{End, Tally};
use report::{Ending, Report};
use std::fmt;
use std::fmt::Write;

fn tally_lines(page: &mut impl Write, t: Tally) -> fmt::Result {
    writeln!(page, "reads {}", t.reads)?;
    writeln!(page, "writes {}", t.writes)?;
    writeln!(page, "moved {}", t.moved)
}

fn flag_lines(page: &mut impl Write, e: End) -> fmt::Result {
    writeln!(page, "host flags {}", e.host_flags)?;
    writeln!(page, "card flags {}", e.card_flags)?;
    writeln!(page, "arrays current on host {}", e.on_host)?;
    writeln!(page, "arrays current on card {}", e.on_card)
}

fn done_lines(page: &mut impl Write, r: Report, end: End) -> fmt::Result {
    write!(page, "ending done\nnumber {}\n", r.values.number)?;
    writeln!(page, "choices used {}", end.used)?;
    tally_lines(page, r.tally)?;
    flag_lines(page, end)
}

fn stopped_lines(page: &mut impl Write, r: Report) -> fmt::Result {
    write!(page, "ending stopped\nnumber {}\n", r.values.number)?;
    write!(page, "record {}\ncell {}\n", r.values.place, r.values.cell)?;
    tally_lines(page, r.tally)
}

fn spent_lines(page: &mut impl Write, r: Report) -> fmt::Result {
    write!(page, "ending choices spent\nnumber {}\n", r.values.number)?;
    writeln!(page, "record {}", r.values.place)?;
    tally_lines(page, r.tally)
}

fn refused_lines(page: &mut impl Write, r: Report) -> fmt::Result {
    write!(page, "ending refused\nnumber {}\n", r.values.number)?;
    write!(
        page,
        "place {}\nreason {}\n",
        r.values.place,
        Meaning(r.values)
    )
}

// The lines that make sense for the run's ending.
pub fn report_lines(page: &mut impl Write, r: Report) -> fmt::Result {
    match r.ending {
        Ending::Done(end) => done_lines(page, r, end),
        Ending::Stopped => stopped_lines(page, r),
        Ending::Spent => spent_lines(page, r),
        Ending::Refused => refused_lines(page, r),
    }
}
