//! Rows of commands, one after the other in one folder.
use crate::boxes::with_boxes;
use crate::ends::are_as_said;
use crate::folders::host_of;
use command_runs::{Stop, run_stops};
use example_rows::{
    Fail, Table, faults_at, faults_from, has, is_null, items_at, names_of, text_of, written_at,
};
use host_core::{MemHost, Pick, Sequence};
use move_core::{Boxes, Kit};
use serde_json::Value;
use std::alloc::Global;

/// A row has a folder and `runs`, which are commands one after the other in it; or `cases`, each with its own
/// `runs` in that folder and what it has besides.
///
/// The folder is that of `folders.json` named by `folder`, or the shipped one, whose files are inputs. `files` are
/// both inputs and files of the folder, `inputs` are inputs alone, `parts` are long or odd files. A text is a file's
/// bytes, an object stands for its file text, and all else for its compact text. What a case has of a name comes
/// before what the row has, and that before the named folder.
///
/// A run has the `words`, the whole `output`, the `status`, the `restarts` that are requested, and `after`: the
/// files that are others than before, null where one is gone. All other files but `tmp.new` are as before. `fails`
/// are the numbers of calls that fail, from 0, `fails_from` that of the first of which none is done any more, and
/// `calls` how many calls there are. `picks` are crashes that follow: the case is done once for each of them, null
/// being none.
///
/// Where `both_rules` is there, all is done twice, the second time with the rule that judges each configuration
/// whole in the place of the program's.
#[derive(Clone, Copy)]
pub struct Stories;

impl<R: AllocGlobal> Table<R> for Stories {
    fn is_as_said(&self, rt: &R, folders: &Value, row: &Value) -> Result<bool, Fail> {
        let alloc = rt.alloc();
        if !has(row, "cases") {
            return is_case(alloc, folders, row, row);
        }
        for case in items_at(row, "cases")? {
            if !is_case(alloc, folders, row, case)? {
                return Ok(false);
            }
        }
        Ok(true)
    }
}

/// Whether a case of a row is as it says, with each of its picks.
fn is_case(alloc: Global, folders: &Value, row: &Value, case: &Value) -> Result<bool, Fail> {
    let runs = items_at(case, "runs")?;
    for number in 0..count_turns(runs)? {
        let turn = Turn {
            folders,
            row,
            case,
            runs,
            number,
        };
        if !is_turn(alloc, &turn)? {
            return Ok(false);
        }
    }
    Ok(true)
}

/// How many picks the first command has, or 1.
fn count_turns(runs: &[Value]) -> Result<usize, Fail> {
    match runs.first() {
        Some(run) => Ok(picks_of(run)?.len().max(1)),
        None => Ok(1),
    }
}

fn is_turn(alloc: Global, turn: &Turn) -> Result<bool, Fail> {
    if !with_boxes(alloc, false, turn)? {
        return Ok(false);
    }
    if has(turn.row, "both_rules") {
        return with_boxes(alloc, true, turn);
    }
    Ok(true)
}

/// A case of a row, with the picks of one number.
#[derive(Drop)]
pub struct Turn<'a> {
    folders: &'a Value,
    row: &'a Value,
    case: &'a Value,
    runs: &'a [Value],
    number: usize,
}

impl<'a> Turn<'a> {
    /// Runs the commands on a host of the folder, and tells whether all is as said.
    pub fn is_as_said(&self, alloc: Global, kit: &mut Kit) -> Result<bool, Fail>
        requires { ⟦<Kit as Boxes>⟧.HasKinds kit.old }
    {
        let host = host_of(alloc, self.folders, self.row, self.case)?;
        match self.stops(alloc) {
            Ok(stops) => self.are_run(alloc, kit, host, stops),
            Err(fail) => {
                drop(host);
                Err(fail)
            }
        }
    }

    fn are_run(
        &self,
        alloc: Global,
        kit: &mut Kit,
        host: MemHost,
        stops: Vec<Stop>,
    ) -> Result<bool, Fail>
        requires { ⟦<Kit as Boxes>⟧.HasKinds kit.old }
    {
        let (host, rans) = run_stops(alloc, stops, kit, host)?;
        let same = are_as_said(alloc, self.runs, host.restarts(), &rans);
        drop(host);
        drop(rans);
        same
    }

    /// The commands, and one of no words behind them, which finds what the last one leaves.
    fn stops(&self, alloc: Global) -> Result<Vec<Stop>, Fail> {
        let mut stops = Vec::new(alloc);
        match self.push_stops(alloc, &mut stops) {
            Ok(()) => Ok(stops),
            Err(fail) => {
                drop(stops);
                Err(fail)
            }
        }
    }

    fn push_stops(&self, alloc: Global, stops: &mut Vec<Stop>) -> Result<(), Fail> {
        for run in self.runs {
            stops.push(stop_of(alloc, run, self.number)?)?;
        }
        let words = Sequence::new(alloc);
        let faults = faults_from(alloc, None);
        stops.push(Stop {
            words,
            faults,
            pick: None,
        })?;
        Ok(())
    }
}

/// A command, with its pick of that number.
fn stop_of(alloc: Global, run: &Value, number: usize) -> Result<Stop, Fail> {
    let words = names_of(alloc, items_at(run, "words")?)?;
    let faults = faults_at(alloc, run)?;
    let pick = pick_at(alloc, run, number)?;
    Ok(Stop {
        words,
        faults,
        pick,
    })
}

/// The pick of that number, where there is one.
fn pick_at(alloc: Global, run: &Value, number: usize) -> Result<Option<Pick>, Fail> {
    match picks_of(run)?.get(number) {
        Some(said) => pick_of(alloc, said),
        None => Ok(None),
    }
}

/// The picks of a command.
fn picks_of(run: &Value) -> Result<&[Value], Fail> {
    if has(run, "picks") {
        items_at(run, "picks")
    } else {
        Ok(&[])
    }
}

/// The pick that a value is: a word, or an object with the `Bytes`. Null is none.
fn pick_of(alloc: Global, said: &Value) -> Result<Option<Pick>, Fail> {
    if is_null(said) {
        return Ok(None);
    }
    if let Ok(name) = text_of(said) {
        return Ok(Some(pick_named(name)?));
    }
    let bytes = written_at(alloc, said, "Bytes")?;
    Ok(Some(Pick::Bytes(Sequence::from_vec(bytes))))
}

/// The pick of a word.
fn pick_named(name: &str) -> Result<Pick, Fail> {
    match name {
        "Gone" => Ok(Pick::Gone),
        "Before" => Ok(Pick::Before),
        "After" => Ok(Pick::After),
        _ => Err(Fail::Row),
    }
}
