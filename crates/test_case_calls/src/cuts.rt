//! Questions about column cuts: minimums, shares and a width in, a cut out.

use crate::faults::Fault;
use crate::texts::numbers;
use crate::watch::Watch;
use html_render_parts_widths::{
    ColumnCut, Meter, check_cut, column_widths, column_widths_metered, cut_fits,
};
use std::alloc::Global;
use std::str::Split;

/// Returns the next field; an empty one if there is none.
fn next<'a>(fields: &mut Split<'a, char>) -> &'a str {
    match fields.next() {
        Some(field) => field.trim(),
        None => "",
    }
}

/// Returns the result of a question about columns: their minimums, their shares and a width, separated by `/`; for `check_cut` also
/// a cut.
///
/// `column_widths` and `column_widths_metered` must return one cut, which `check_cut` accepts. The number of sums of the search
/// follows the cut if the metered call is asked.
pub fn answer(alloc: Global, asked: &str, given: &str, watch: Watch) -> Result<String, Fault> {
    let mut fields = given.split('/');
    let minimums = numbers(alloc, next(&mut fields))?;
    let shares = numbers(alloc, next(&mut fields))?;
    let width = next(&mut fields).parse::<usize>()?;
    let given_cut = ColumnCut {
        widths: numbers(alloc, next(&mut fields))?,
        level: next(&mut fields).parse().unwrap_or(0),
        lowered: next(&mut fields).parse().unwrap_or(0),
    };
    let fits = cut_fits(&minimums, &shares, width);
    match asked {
        "cut_fits" => watch.begin(asked).shown(alloc, Ok(fits)),
        "check_cut" => watch.begin(asked).shown(
            alloc,
            Ok(check_cut(&minimums, &shares, width, &given_cut)),
        ),
        _ if !fits => Err(Fault::Malformed("the columns don't fit")),
        _ => {
            let mut meter = Meter::default();
            let metered = watch.begin_asked(asked, "column_widths_metered").end(
                column_widths_metered(alloc, &minimums, &shares, width, &mut meter),
            )?;
            let cut = watch
                .begin_asked(asked, "column_widths")
                .end(column_widths(alloc, &minimums, &shares, width))?;
            if cut != metered || !check_cut(&minimums, &shares, width, &cut) {
                return Err(Fault::Malformed("two calls answer two cuts, or a wrong one"));
            }
            match asked {
                "column_widths" => Ok(format!(in alloc; "|{cut:?}\n")?),
                _ => Ok(format!(in alloc; "|{cut:?}, probes {}\n", meter.probes)?),
            }
        }
    }
}
