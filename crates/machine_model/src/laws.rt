//! What holds of every ready disk, of every script, and of every step.
ghost use Rattle.machine_model.specs.Disks.{CompleteIsDone, EmptyIsReady, OpenLayersAreKept};
ghost use Rattle.machine_model.specs.Extensions.{AppendedScriptsGoOn, LaterMachinesStand, LongerScriptsStand, ScriptsEndByCommands};
ghost use Rattle.machine_model.specs.LineLaws.{ScriptsAreTheirLines};
ghost use Rattle.machine_model.specs.Orders.{StepsKeepOrder};
ghost use Rattle.machine_model.specs.Past.{StepsAreLater};
ghost use Rattle.machine_model.specs.ProperMachines.{ScriptsHaveProperHistories, StepsKeepHistory};

use outside_world::Disk;

/// A law: a disk that is known and settled and holds no object is ready before every script.
pub fn empty_disks_are_ready<D: Disk>()
    ensures { (disk : D) → EmptyIsReady (D.view disk) }
{}

/// A law: where a disk is ready at the end of a script, the open layers of the own cluster are
/// just those of the machine: each that is open is one of them, and `IsReady` has each of them open
/// and whole.
pub fn open_layers_are_the_machines<D: Disk>()
    ensures { (disk : D) → OpenLayersAreKept (D.view disk) }
{}

/// A law: where a disk is ready at the end of a script that forgets no layer, all of them are done,
/// so a further run of the script leaves the disk as it is.
pub fn complete_disks_are_done<D: Disk>()
    ensures { (disk : D) → CompleteIsDone (D.view disk) }
{}

/// A law: a script is its lines, each with a newline after it, which the last may lack, and no line
/// has a newline in it.
pub fn scripts_are_their_lines()
    ensures { ScriptsAreTheirLines }
{}

/// A law: whatever the command, it changes nothing that was true up to the clock.
pub fn steps_are_later()
    ensures { StepsAreLater }
{}

/// A law: whatever the command, it leads from a machine whose tables and layers are dated up to
/// the clock to another such machine.
pub fn steps_keep_order()
    ensures { StepsKeepOrder }
{}

/// A law: a command in form leads from a machine with a proper history to another such machine.
pub fn steps_keep_history()
    ensures { StepsKeepHistory }
{}

/// A law: the machine at the end of every script has a proper history, in order.
pub fn scripts_have_proper_histories()
    ensures { ScriptsHaveProperHistories }
{}

/// A law: a script ends in the machine to which its commands lead one after the other.
pub fn scripts_end_by_commands()
    ensures { ScriptsEndByCommands }
{}

/// A law of extension: objects that stand for a machine stand for each later one.
pub fn later_machines_stand()
    ensures { LaterMachinesStand }
{}

/// A law of extension: objects that stand for a script stand for every script that goes on with
/// further commands.
pub fn longer_scripts_stand()
    ensures { LongerScriptsStand }
{}

/// A law: what is written after a newline of a script adds commands to its commands.
pub fn appended_scripts_go_on()
    ensures { AppendedScriptsGoOn }
{}
