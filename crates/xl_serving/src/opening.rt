//! Opening: reads configuration and script, opens the rows.

ghost use Rattle.std.specs.Prelude.{◌≡◌, ◌≤◌, [], None, All, IfOk, IfErr, OnOk, IfSome, length, map, option_map};
ghost use Rattle.xl_model.specs.Rows.{row_of, IsRow};
ghost use Rattle.xl_model.specs.Scenes.{opened};
ghost use Rattle.xl_made.specs.Made.{made_script};
ghost use Rattle.xl_outside.specs.Folders.{file_of, FolderAfter, fate_by, Fine};
ghost use Rattle.xl_words.specs.Words.{plain_of};
ghost use Rattle.xl_course.specs.Stops.{stop_fate, StopsOpening};
ghost use Rattle.xl_serving.specs.Inputs.{Finds, said_in, rows_said, commands_said, rows_in, commands_in, commands_for};
ghost use Rattle.xl_serving.specs.Plain.{start_of, started, AreOpened};

use crate::rows::Rows;
use crate::stop::{config_stop, script_stop};
use std::alloc::Global;
use xl_course::Stop;
use xl_made::made_script;
use xl_model::{NoMemory, Row};
use xl_outside::{Folder, read_whole};
use xl_script::{Script, parse};
use xl_words::Plain;

/// The most bytes of a configuration.
const MOST_ROWS: usize = 65_536;

/// The most bytes of a script.
const MOST_COMMANDS: usize = 1_048_576;

/// Reads the configuration, of at most 65,536 bytes, and then the script, of at most 1,048,576, and
/// opens the rows.
///
/// # Errors
///
/// What is wrong with a file, or that a read failed, or that there is no memory; then rows may have
/// been opened.
pub fn open<R: Rows, F: Folder>(
    alloc: Global,
    words: &Plain<'_>,
    folder: &mut F,
    rows: &mut R,
) -> Result<Script, Stop>
    requires { R.rows rows.old ≡ [] }
    ensures known { IfSome (F.folder.files folder.old) (λ fs.
        Finds (start_of (R.rows rows.new)) result (started (rows_in (plain_of words.now).config fs)
        (commands_for (plain_of words.now) fs))) }
    ensures leaves { FolderAfter F.folder folder.old folder.new
        (fate_by stop_fate result) }
    ensures before { IfErr result StopsOpening }
    ensures opening { AreOpened (R.rows rows.new) }
{
    let designs = read_config(alloc, folder, words.config)?;
    let script = script_for(alloc, folder, words)?;
    add_all(alloc, rows, designs)?;
    Ok(script)
}

/// Opens rows, one after another, up to one for which there is no memory.
fn add_all<R: Rows>(alloc: Global, rows: &mut R, designs: Vec<Row>) -> Result<(), NoMemory>
    requires none { R.rows rows.old ≡ [] }
    requires fit { All IsRow (map row_of designs.items) }
    requires few { length designs.items ≤ 16 }
    ensures all { OnOk result (R.rows rows.new ≡ opened (map row_of designs.items)) }
    ensures opening { AreOpened (R.rows rows.new) }
{
    for design in designs {
        rows.add(alloc, design)?;
    }
    Ok(())
}

/// Reads the configuration of this name, of at most 65,536 bytes.
fn read_config<F: Folder>(alloc: Global, folder: &mut F, name: &str) -> Result<Vec<Row>, Stop>
    ensures known { IfSome (F.folder.files folder.old) (λ fs.
        Finds (λ rows. map row_of rows.items) result (rows_in name.now fs)) }
    ensures leaves { FolderAfter F.folder folder.old folder.new
        (fate_by stop_fate result) }
    ensures before { IfErr result StopsOpening }
    ensures fit { IfOk result (λ rows. All IsRow (map row_of rows.items)) }
    ensures few { IfOk result (λ rows. length rows.items ≤ 16) }
{
    let text = read_whole(alloc, folder, name, MOST_ROWS)?;
    rows_of(alloc, text.as_slice())
}

/// The rows of a configuration.
fn rows_of(alloc: Global, text: &[u8]) -> Result<Vec<Row>, Stop>
    ensures said { Finds (λ rows. map row_of rows.items) result (rows_said text.now) }
    ensures before { IfErr result StopsOpening }
    ensures fine { fate_by stop_fate result ≡ Fine }
    ensures fit { IfOk result (λ rows. All IsRow (map row_of rows.items)) }
    ensures few { IfOk result (λ rows. length rows.items ≤ 16) }
{
    match xl_config::read(alloc, text) {
        Ok(rows) => Ok(rows),
        Err(fault) => Err(config_stop(fault)),
    }
}

/// Makes the script or reads it, as the words ask for.
fn script_for<F: Folder>(alloc: Global, folder: &mut F, words: &Plain<'_>) -> Result<Script, Stop>
    ensures known { IfSome (F.folder.files folder.old) (λ fs.
        Finds (λ script. script) result (commands_for (plain_of words.now) fs)) }
    ensures leaves { FolderAfter F.folder folder.old folder.new
        (fate_by stop_fate result) }
    ensures before { IfErr result StopsOpening }
{
    match words.made {
        Some(records) => made_commands(alloc, records),
        None => read_script(alloc, folder, words.script),
    }
}

/// The commands of a made script.
fn made_commands(alloc: Global, records: u32) -> Result<Script, Stop>
    ensures said { Finds (λ script. script) result (commands_said (made_script records)) }
    ensures before { IfErr result StopsOpening }
    ensures fine { fate_by stop_fate result ≡ Fine }
{
    let text = made_script(alloc, records)?;
    commands_of(alloc, text.as_slice())
}

/// Reads the script of this name, of at most 1,048,576 bytes; where there is none, the script has
/// no commands.
fn read_script<F: Folder>(alloc: Global, folder: &mut F, name: Option<&str>) -> Result<Script, Stop>
    ensures known { IfSome (F.folder.files folder.old) (λ fs.
        Finds (λ script. script) result (commands_in (option_map (λ s. s.now) name.entry) fs)) }
    ensures leaves { FolderAfter F.folder folder.old folder.new
        (fate_by stop_fate result) }
    ensures before { IfErr result StopsOpening }
{
    match name {
        Some(name) => read_commands(alloc, folder, name),
        None => commands_of(alloc, b""),
    }
}

/// Reads the script of this name.
fn read_commands<F: Folder>(alloc: Global, folder: &mut F, name: &str) -> Result<Script, Stop>
    ensures known { IfSome (F.folder.files folder.old) (λ fs.
        Finds (λ script. script) result (said_in commands_said (file_of fs name.now))) }
    ensures leaves { FolderAfter F.folder folder.old folder.new
        (fate_by stop_fate result) }
    ensures before { IfErr result StopsOpening }
{
    let text = read_whole(alloc, folder, name, MOST_COMMANDS)?;
    commands_of(alloc, text.as_slice())
}

/// The commands of a script.
fn commands_of(alloc: Global, text: &[u8]) -> Result<Script, Stop>
    ensures said { Finds (λ script. script) result (commands_said text.now) }
    ensures before { IfErr result StopsOpening }
    ensures fine { fate_by stop_fate result ≡ Fine }
{
    match parse(alloc, text) {
        Ok(commands) => Ok(commands),
        Err(fault) => Err(script_stop(fault)),
    }
}
