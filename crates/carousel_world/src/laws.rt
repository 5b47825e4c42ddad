//! The laws, as functions that do nothing.
ghost use Rattle.carousel_world.specs.Instances.{PremisesCanBeMet};
ghost use Rattle.carousel_world.specs.Publishing.{EachCycleOpens, EveryPublicationMeets, PublicationsCanBePacked};
ghost use Rattle.carousel_world.specs.Promises.{EveryRunMeetsTheHeadline};
ghost use Rattle.carousel_world.specs.Receptions.{EveryReceptionMeets, GenerationsNeverGoBack, LabelsNeverFall};
ghost use Rattle.carousel_world.specs.Settling.{EverySettledRunIsWhole, EverySettledRunOpens};

/// Each answer tells of one generation, whatever is lost, damaged, repeated or interleaved on the
/// way. This is premised: each accepted section is one that was sent, the order of sending is kept,
/// and fewer than 256 commits separate a block from the DII heard before it.
///
/// It holds of all lists of packets and of sections, and of all layouts that up to 16 DIIs list.
pub fn every_reception_meets()
    ensures { EveryReceptionMeets }
{
    dsmcc_section::spellings_read();
    ddb_block::spellings_read();
    dsi_dii::spellings_read_back();
    generation::equal_versions_mean_equal_bytes();
    section_stream::cuts_come_in_order();
}

/// The accepted sections' generations never go back, and none is below the label. This is premised:
/// each accepted section is one that was sent, in the order of sending.
pub fn generations_never_go_back()
    ensures { GenerationsNeverGoBack }
{
    dsmcc_section::spellings_read();
    ddb_block::spellings_read();
    dsi_dii::spellings_read_back();
    section_stream::cuts_come_in_order();
}

/// The label never falls as more is heard, whatever that is.
pub fn labels_never_fall()
    ensures { LabelsNeverFall }
{
    section_stream::candidates_grow();
}

/// The same of one published tree that is sent in whole cycles, without premises about distance.
pub fn every_publication_meets()
    ensures { EveryPublicationMeets }
{
    every_reception_meets();
    generation::layouts_are_lawful();
}

/// The packets of one or more whole cycles, undamaged, give each path of the tree, whatever their
/// PID, 0 to 8,191, and the weights, 1 to 8.
pub fn each_cycle_opens()
    ensures { EachCycleOpens }
{
    every_publication_meets();
    dsmcc_section::spellings_read();
    ddb_block::spellings_read();
    dsi_dii::spellings_read_back();
    generation::layouts_are_lawful();
    section_stream::packets_give_the_groups();
}

/// A packer takes the sections of every publication: they have 12 to 4,096 bytes.
pub fn publications_can_be_packed()
    ensures { PublicationsCanBePacked }
{
    dsmcc_section::spellings_read();
    ddb_block::spellings_read();
    dsi_dii::spellings_read_back();
    generation::layouts_are_lawful();
}

/// Every list of events keeps the promises after each event, while damaged sections fail their CRC
/// and fewer than 256 commits separate a block from the DII heard before it. Each open tells of one
/// published generation, and after a whole cycle every path of it opens.
///
/// It holds where the published trees are of bytes and within the limits, as a `World`'s are.
pub fn every_run_meets_the_headline()
    ensures { EveryRunMeetsTheHeadline }
{
    generation_catalogue::histories_grow();
    generation::generations_are_of_the_lists();
    generation::layouts_are_lawful();
    every_reception_meets();
    labels_never_fall();
}

/// Two draws of the most items, without loss, settle each world, because the first ends the cycle
/// under way. Each open then answers from the last generation's tree, under the premises of
/// `every_run_meets_the_headline`, while the history has room for the two draws.
pub fn settling_is_whole()
    ensures whole { EverySettledRunIsWhole }
    ensures opens { EverySettledRunOpens }
{
    generation_catalogue::histories_grow();
    generation::generations_are_of_the_lists();
    generation::layouts_are_lawful();
    every_run_meets_the_headline();
    section_stream::later_groups_are_given();
    dsmcc_section::spellings_read();
    ddb_block::spellings_read();
    dsi_dii::spellings_read_back();
}

/// The premises of the other laws can be met, and the answers differ. The examples are two
/// publications, four receptions with loss, damage and late blocks, one of them over 255 commits,
/// and a world's run.
pub fn premises_can_be_met()
    ensures { PremisesCanBeMet }
{
    every_publication_meets();
    dsmcc_section::spellings_read();
    ddb_block::spellings_read();
    dsi_dii::spellings_read_back();
    generation::layouts_are_lawful();
}
