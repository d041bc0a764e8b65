use arrays::reply::{Holding, Reply};
use rules::table::Seen;
use say::say::say;
use show::buffer::{Output, flush};

// Prints the line over what is lent.
pub fn print_table(holding: Holding, seen: Seen<'_>) {
    let mut bytes = [0; 65536];
    let mut out = Output::new(&mut bytes);
    say(&mut out, holding, seen, Reply::Live, 0);
    flush(&mut out);
}
