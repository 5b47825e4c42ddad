ghost use Rattle.shell_commands.specs.Laws.{Receptions};
ghost use Rattle.shell_commands.specs.Limits.{Limits};

use carousel_world::{
    each_cycle_opens, every_publication_meets, every_reception_meets, labels_never_fall,
    publications_can_be_packed,
};
use mount_table::one_mount_decides;
use psi_tables::{
    each_listed_pid_is_followed, it_is_found_once_its_tables_came, it_is_nowhere_else,
};
use section_stream::packets_give_the_groups;

/// What holds of all that is heard and found.
pub fn receptions()
    ensures { Receptions }
{
    every_reception_meets();
    labels_never_fall();
    every_publication_meets();
    each_cycle_opens();
    publications_can_be_packed();
    packets_give_the_groups();
    it_is_nowhere_else();
    it_is_found_once_its_tables_came();
    each_listed_pid_is_followed();
    one_mount_decides();
}

/// All limits as numbers, and the kinds of objects as bytes.
pub fn limits_are_numbers()
    ensures { Limits }
{
    receiver_commands::limits_are_numbers();
    tuner_core::limits_are_numbers();
}
