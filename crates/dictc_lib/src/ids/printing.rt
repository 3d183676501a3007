//! Printing the rows of `dictc ids` on standard output.

use super::listing::append_entries;
use super::pair_row::PairRow;
use super::pair_rows::rows_of_pairs;
use super::template::Template;
use command_lines::dictc::IdsOptions;
use dict_image::{Dict, DigestTest};
use mj_model::OverlayFault;
use programs::{Fault, Reporter, Stage, load_dictionary, write_whole};
use std::alloc::{AllocError, Global};
use std::io::{self, Write};
use std::slice;
use std::string::String;
use word_lookup::Dictionaries;

/// The names of the columns.
const HEADING: &str =
    "left\tright\tentries\tleast\tlower_quartile\tmedian\tupper_quartile\tgreatest\n";

/// Prints the ids and costs of the requested entries on standard output.
pub fn print_ids(rt: &HostRuntime, options: &IdsOptions) -> Result<(), Fault> {
    let reporter = Reporter::new(rt, "dictc", options.verbose);
    let rows = requested_rows(rt, options, &reporter);
    if let Err(fault) = &rows {
        reporter.log_cause(fault);
    }
    let rows = rows?;
    if rows.is_empty() {
        reporter.log_always(Stage::NoEntry {
            feature: options.feature.as_str(),
        });
    }
    let text = text_of(rt.alloc(), &rows)?;
    write_rows(&text, &mut rt.stdout()).map_err(|_| Fault::Output)
}

/// Returns the rows of the requested entries.
fn requested_rows(
    rt: &HostRuntime,
    options: &IdsOptions,
    reporter: &Reporter<'_>,
) -> Result<Vec<PairRow>, Fault> {
    let digest = DigestTest::skipped_if(options.skip_digest);
    let system = loaded_at(rt, options.dic.as_str(), digest, reporter)?;
    rows_over(rt, options, &system, reporter)
}

/// Returns the rows of the requested entries of `system` and of the user dictionaries that the
/// options name.
fn rows_over(
    rt: &HostRuntime,
    options: &IdsOptions,
    system: &Dict,
    reporter: &Reporter<'_>,
) -> Result<Vec<PairRow>, Fault> {
    let digest = DigestTest::skipped_if(options.skip_digest);
    let users = loaded_from(rt, &options.users, digest, reporter)?;
    check_images(rt.alloc(), options, system, &users)?;
    Ok(rows_of(rt.alloc(), options, system, &users)?)
}

/// Loads the dictionaries of the images at `paths`, with a log message for each.
fn loaded_from(
    rt: &HostRuntime,
    paths: &[String],
    digest: DigestTest,
    reporter: &Reporter<'_>,
) -> Result<Vec<Dict>, Fault> {
    let mut dicts = Vec::new(rt.alloc());
    for path in paths {
        let dict = loaded_at(rt, path.as_str(), digest, reporter)?;
        dicts.push(dict).map_err(AllocError::from)?;
    }
    Ok(dicts)
}

/// Returns an error if `system` is not a system dictionary, or one of `users` is not a user
/// dictionary for it.
fn check_images(
    alloc: Global,
    options: &IdsOptions,
    system: &Dict,
    users: &[Dict],
) -> Result<(), Fault> {
    if let Err(fault) = check_system(system) {
        return Err(Fault::of_overlay(alloc, options.dic.as_str(), fault));
    }
    for (i, user) in users.iter().enumerate() {
        let fault = fault_of_user(system, user, i);
        if let (Some(fault), Some(path)) = (fault, options.users.get(i)) {
            return Err(Fault::of_overlay(alloc, path.as_str(), fault));
        }
    }
    Ok(())
}

/// Loads the dictionary of the image at `path`, with a log message.
fn loaded_at(
    rt: &HostRuntime,
    path: &str,
    digest: DigestTest,
    reporter: &Reporter<'_>,
) -> Result<Dict, Fault> {
    let dict = load_dictionary(rt, path, digest)?;
    reporter.log(Stage::Loaded { path });
    Ok(dict)
}

/// Returns an error if `system` is not a system dictionary.
fn check_system(system: &Dict) -> Result<(), OverlayFault> {
    Dictionaries::new(system, &[]).map(|_| ())
}

/// Returns why user dictionary `i` can't be used with `system`; None if it can.
fn fault_of_user(system: &Dict, user: &Dict, i: usize) -> Option<OverlayFault> {
    match Dictionaries::new(system, slice::from_ref(user)) {
        Ok(_) => None,
        Err(OverlayFault::NotSystem) => Some(OverlayFault::NotSystem),
        Err(OverlayFault::NotUser(_)) => Some(OverlayFault::NotUser(i)),
        Err(OverlayFault::OtherSizes(_)) => Some(OverlayFault::OtherSizes(i)),
    }
}

/// Returns the rows of the entries of all dictionaries that fit the requested part of speech.
fn rows_of(
    alloc: Global,
    options: &IdsOptions,
    system: &Dict,
    users: &[Dict],
) -> Result<Vec<PairRow>, AllocError> {
    let template = Template::of(alloc, options.feature.as_str())?;
    let mut entries = Vec::new(alloc);
    append_entries(system, &mut entries)?;
    for user in users {
        append_entries(user, &mut entries)?;
    }
    rows_of_pairs(alloc, &template, &entries)
}

/// Returns the heading and a line for each row, with columns separated by tabs.
pub fn text_of(alloc: Global, rows: &[PairRow]) -> Result<String, AllocError> {
    let mut text = String::from_str(alloc, HEADING)?;
    for row in rows {
        text.push_str(line_of(alloc, row)?.as_str())?;
    }
    Ok(text)
}

/// Returns the line of a row.
fn line_of(alloc: Global, row: &PairRow) -> Result<String, AllocError> {
    format!(in alloc;
        "{}\t{}\t{}\t{}\t{}\t{}\t{}\t{}\n",
        row.left,
        row.right,
        row.entries,
        row.least,
        row.lower_quartile,
        row.median,
        row.upper_quartile,
        row.greatest
    )
}

fn write_rows<W: Write>(text: &String, out: &mut W) -> io::Result<()> {
    write_whole(out, text.as_bytes())?;
    out.flush()
}
