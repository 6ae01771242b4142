//! Laws of texts, of what is read and of the stories of runs, each the contract of a function that does nothing.
ghost use Rattle.ch_run.specs.SavedTextLaws.{HierarchyTextsReadBack, SavedTextsReadBack};
ghost use Rattle.ch_run.specs.TextLaws.{AnswersHaveOneText, HierarchiesHaveOneText, NearRowsHaveOneText, SavedNearRowsAreThoseOfTheGraph, TablesHaveOneText};
ghost use Rattle.ch_run.specs.declared.fault.RunFault.{RunFault as FaultOf};
ghost use Rattle.ch_run.specs.declared.fault.Which.{Which as WhichOf};
ghost use Rattle.ch_job.specs.declared.options.Options.{Options as OptionsOf};
ghost use Rattle.ch_job.specs.declared.source.Source.{Source as SourceOf};
ghost use Rattle.ch_job.specs.declared.sources.Sources.{Sources as SourcesOf};
ghost use Rattle.ch_run.specs.NearRun.{sources_reading};
ghost use Rattle.ch_run.specs.Run.{GivesOnly, OrderFile, ReadsOnce, WritesOnce, reading};
ghost use Rattle.ch_run.specs.Source.{source_reading};
ghost use Rattle.ch_run.specs.Stories.{RunsAsk, RunsDist, RunsNear, RunsSave, RunsTable};
ghost use Rattle.ch_run.specs.Told.{AskTells, DistTells, NearTells, ReportsReads, ReportsWrites, SaveTells, TableTells};
ghost use Rattle.std.specs.Prelude.{◌≡◌, ℕ, List, Result, Some};

use ch_text::{Input, Output};

/// Proves that the definitions name one text: of answers, of a table, of near rows, and of a hierarchy that is saved.
/// There is one order of contraction, one meet, one choice at each step, one list of arcs for each leg, and one
/// distance. No worker, piece or gate occurs in the definitions. A saved hierarchy may be of any origin.
pub fn one_text<I: Input, S: Input, J: Input, L: Input>()
    ensures answers { (graph graph' : I) → (source source' : SourceOf S) → (queries queries' : J) →
        AnswersHaveOneText (reading I.read_gives graph graph') (source_reading S.read_gives source source') (reading J.read_gives queries queries') }
    ensures tables { (graph graph' : I) → (source source' : SourceOf S) → (sources sources' : J) → (targets targets' : L) →
        TablesHaveOneText (reading I.read_gives graph graph') (source_reading S.read_gives source source') (reading J.read_gives sources sources') (reading L.read_gives targets targets') }
    ensures rows { (graph graph' : I) → (source source' : SourceOf S) → (sources sources' : SourcesOf J) → (targets targets' : L) →
        NearRowsHaveOneText (reading I.read_gives graph graph') (source_reading S.read_gives source source') (sources_reading J.read_gives sources sources') (reading L.read_gives targets targets') }
    ensures hierarchies { (graph graph' : I) → (source source' : SourceOf S) →
        HierarchiesHaveOneText (reading I.read_gives graph graph') (source_reading S.read_gives source source') }
    ensures orders { (graph graph' : I) → (order order' : S) → (fresh hops : ℕ) →
        HierarchiesHaveOneText (reading I.read_gives graph graph') (OrderFile (reading S.read_gives order order') fresh hops) }
{}

/// Proves that near rows by a saved hierarchy of any origin are those of the graph.
pub fn near_rows_of_graph<I: Input, S: Input, J: Input, L: Input>()
    ensures { (graph graph' : I) → (saved saved' : S) → (sources sources' : SourcesOf J) → (targets targets' : L) →
        SavedNearRowsAreThoseOfTheGraph (reading I.read_gives graph graph') (reading S.read_gives saved saved') (sources_reading J.read_gives sources sources') (reading L.read_gives targets targets') }
{}

/// Proves that a saved text is accepted when it is read back. The text of a hierarchy that is right for a
/// graph names this hierarchy again. This holds of a hierarchy of any origin, and of the one that is saved of
/// a graph.
pub fn saved_text_reads_back()
    ensures kept { HierarchyTextsReadBack }
    ensures saved { SavedTextsReadBack }
{}

/// Proves that the reads of an input whose bytes are known can give these bytes alone. So what a run promises of the
/// bytes that its reads gave holds of the bytes of an input in memory.
pub fn known_bytes<I: Input>()
    ensures { (old new : I) → (bytes : List ℕ) → I.left old ≡ Some bytes → GivesOnly (reading I.read_gives old new) bytes }
{}

/// Proves what the story of each run tells. A run ends only in a fault of its own. An input is refused only for its own
/// first fault, and failed calls of devices are reported exactly. No device is touched before all earlier inputs were
/// accepted. What the output takes is the text that the definitions name, or its beginning.
pub fn stories_tell<I: Input, S: Input, J: Input, L: Input, O: Output>()
    ensures dist { (options : OptionsOf) → (graph graph' : I) → (source source' : SourceOf S) → (queries queries' : J) → (output output' : O) → (result : Result Unit FaultOf) →
        RunsDist options (reading I.read_gives graph graph') (source_reading S.read_gives source source') (reading J.read_gives queries queries') (source' ≡ source) (queries' ≡ queries) O.write_gives output output' result →
        DistTells options (reading I.read_gives graph graph') (source_reading S.read_gives source source') (reading J.read_gives queries queries') (source' ≡ source) (queries' ≡ queries) O.write_gives output output' result }
    ensures table { (options : OptionsOf) → (graph graph' : I) → (source source' : SourceOf S) → (sources sources' : J) → (targets targets' : L) → (output output' : O) → (result : Result Unit FaultOf) →
        RunsTable options (reading I.read_gives graph graph') (source_reading S.read_gives source source') (reading J.read_gives sources sources') (reading L.read_gives targets targets') (source' ≡ source) (sources' ≡ sources) (targets' ≡ targets) O.write_gives output output' result →
        TableTells options (reading I.read_gives graph graph') (source_reading S.read_gives source source') (reading J.read_gives sources sources') (reading L.read_gives targets targets') (source' ≡ source) (sources' ≡ sources) (targets' ≡ targets) O.write_gives output output' result }
    ensures near { (options : OptionsOf) → (graph graph' : I) → (source source' : SourceOf S) → (sources sources' : SourcesOf J) → (targets targets' : L) → (output output' : O) → (result : Result Unit FaultOf) →
        RunsNear options (reading I.read_gives graph graph') (source_reading S.read_gives source source') (sources_reading J.read_gives sources sources') (reading L.read_gives targets targets') (source' ≡ source) (sources' ≡ sources) (targets' ≡ targets) O.write_gives output output' result →
        NearTells options (reading I.read_gives graph graph') (source_reading S.read_gives source source') (sources_reading J.read_gives sources sources') (reading L.read_gives targets targets') (source' ≡ source) (sources' ≡ sources) (targets' ≡ targets) O.write_gives output output' result }
    ensures save { (options : OptionsOf) → (graph graph' : I) → (source source' : SourceOf S) → (output output' : O) → (result : Result Unit FaultOf) →
        RunsSave options (reading I.read_gives graph graph') (source_reading S.read_gives source source') (source' ≡ source) O.write_gives output output' result →
        SaveTells options (reading I.read_gives graph graph') (source_reading S.read_gives source source') (source' ≡ source) O.write_gives output output' result }
    ensures ask { (options : OptionsOf) → (graph graph' : I) → (source source' : SourceOf S) → (requests requests' : J) → (output output' : O) → (result : Result Unit FaultOf) →
        RunsAsk options (reading I.read_gives graph graph') (source_reading S.read_gives source source') (reading J.read_gives requests requests') (source' ≡ source) (requests' ≡ requests) O.write_gives output output' result →
        AskTells options (reading I.read_gives graph graph') (source_reading S.read_gives source source') (reading J.read_gives requests requests') (source' ≡ source) (requests' ≡ requests) O.write_gives output output' result }
{}

/// Proves that failed calls which a run reports exactly are those that its devices count. A failed read or write is
/// reported exactly if the count of the device rose, and it is not tried again.
pub fn reports_count<I: Input, O: Output>()
    ensures reads { (old new : I) → (which : WhichOf) → (result : Result Unit FaultOf) →
        ReportsReads which (reading I.read_gives old new) (new ≡ old) result → ReadsOnce which result I.failed old new }
    ensures writes { (old new : O) → (result : Result Unit FaultOf) → ReportsWrites O.write_gives old new result → WritesOnce result O.failed O.idle old new }
{}
