ghost use Rattle.std.specs.Prelude.{◌≡◌, ◌<◌, ◌⊎◌, ◌↔◌, ◌^◌, ℕ, List, [], false, length};
ghost use Rattle.std.specs.Prelude.{string_bytes, IsTrue};
ghost use Rattle.std.specs.Prelude.{IfOk, IfErr, IfSome, IfNone, Ok, IsOk, OnOk, OnErr, IsErrOf};
ghost use Rattle.std.specs.Io.KnownBytes.{Appends};
ghost use Rattle.cue_device.specs.Texts.{WritesPrefix};
ghost use Rattle.cue_lattice.specs.Limits.{text_limit};
ghost use Rattle.cue_lattice.specs.Refusal.{memory, refusal_at};
ghost use Rattle.cue_codec.specs.Decoding.{IsOtherStateVersion};
ghost use Rattle.cue_codec.specs.State.{IsTableBytes};
ghost use Rattle.cue_lex.specs.Tokens.{text_too_long};
ghost use Rattle.serde_json.specs.View.{view};
ghost use Rattle.serde_json.specs.Written.{has_float};
ghost use Rattle.cue_report.specs.Documents.{SomeMeets, IsDocumentOf, IsExactExport};
ghost use Rattle.cue_report.specs.Picks.{IsPicked};
ghost use Rattle.cue_codec.specs.Size.{size_of};
ghost use Rattle.cue_replica.specs.Language.{language, empty_site};
ghost use Rattle.cue_replica.specs.PrintedAgain.{IsStateReadAgain};
ghost use Rattle.cue_replica.specs.Reading.{HasTakenIn, HasFaultAt};
ghost use Rattle.cue_replica.specs.Reports.{IsExportOfTable, AreConflictsOf, AreGapsOf, printed_text};
ghost use Rattle.cue_replica.specs.Reports.{WritesExportOf, WritesConflictsOf, WritesGapsOf};
ghost use Rattle.cue_replica.specs.Reports.{WritesExportPrefixOf, WritesConflictsPrefixOf, WritesGapsPrefixOf};

use crate::fragment::read;
use cue_codec::{StateReader, StateWriter, decode, encode, size};
use cue_device::TextSink;
use cue_lattice::{Kind, Memory, Refusal};
use cue_report::{Conflict, Export, ExportKind, Gap, Value};
use cue_row::Row;
use cue_table::Table;
use std::alloc::Global;
use std::marker::Model;

/// A site: it holds one valid table, the unification of all that it has accepted.
///
/// Contracts see it as that table, so that two sites with equal tables give the same answer to each
/// call.
#[derive(Drop)]
pub struct Replica {
    table: Table<Row>,
    alloc: Global,
}

impl Model for Replica {
    ghost use Rattle.std.specs.Coded.{codes};
    ghost use Rattle.cue_table.specs.Code.{tree_code};
    ghost use Rattle.cue_replica.specs.Language.{Table as Tables};

    ghost Value = { Tables };

    ghost coded = { tree_code (Prim.hlevel codes) };

    ghost view = { λ replica. replica.table };

    ghost use Rattle.cue_table.specs.Valid.{IsValidTable};

    ghost invariant = { λ replica. IsValidTable replica.table };
}

impl Replica {
    ghost use Rattle.cue_table.specs.Valid.{IsValidTable};
    ghost use Rattle.cue_replica.specs.Inner.Reads.{ReadsTable};
    ghost use Rattle.cue_replica.specs.Replica.{AddsRefusals};

    /// A site that has accepted nothing.
    pub fn new(alloc: Global) -> Replica
        ensures { result ≡ empty_site }
    {
        Replica {
            table: Table::new(alloc),
            alloc,
        }
    }

    /// Accepts a text: the table then refuses what it refused and what the text refuses. A refused
    /// text changes nothing.
    ///
    /// # Errors
    ///
    /// The first fault among the text's tokens: `TooLong`, `BadCharacter`, `BadString`,
    /// `BadNumber`, `IntRange`, `TextTooLong`; else `Syntax`, `Nesting` or `LeftOut`; else the
    /// first of `Repeated`, `FieldReference` and `UnknownName`, `Cycle`, `NotScalar`, `TooLarge`
    /// and `TooDeep`. Each comes with its place in the text. And `Memory`.
    pub fn submit(&mut self, text: &str) -> Result<(), Refusal>
        ensures legal { OnOk result (language.IsLegal text.now) }
        ensures ok { OnOk result (AddsRefusals self.old (language.text_refuses text.now) self.new) }
        // Want of memory hides no fault that is found with none.
        ensures refused { IfErr result (λ why.
            ((why ≡ memory) × ¬ language.IsTextRefusedAtOnce text.now)
            ⊎ language.IsTextFault text.now why) }
        // A text that is too long is always refused as such: for it no memory is wanted.
        ensures long { text_limit < length text.now → IsErrOf result text_too_long }
        ensures err { OnErr result (self.new ≡ self.old) }
        ensures valid { language.IsValid self.new }
    {
        let table = read(self.alloc, text)?;
        self.table.meet_with(table)?;
        Ok(())
    }

    /// Accepts state bytes: the table then refuses what it refused and what the table of the bytes
    /// refuses. Refused bytes change nothing.
    ///
    /// # Errors
    ///
    /// `Version`, `NotState` and `Memory`, all at place 0.
    pub fn take(&mut self, bytes: &[u8]) -> Result<(), Refusal>
        ensures state { OnOk result (language.IsState bytes.now) }
        ensures ok { OnOk result (AddsRefusals self.old (language.state_refuses bytes.now) self.new) }
        // Want of memory hides no fault that is found with none.
        ensures refused { IfErr result (λ why.
            ((why ≡ memory) × ¬ language.IsStateRefusedAtOnce bytes.now)
            ⊎ language.IsStateFault bytes.now why) }
        // `Version` exactly where the bytes are of another version: for these no memory is wanted.
        ensures version { IsOtherStateVersion bytes.now → IsErrOf result (refusal_at Kind.Version 0) }
        // The state of a site that has accepted nothing wants none either.
        ensures opening { IsTableBytes bytes.now empty_site → IsOk result }
        ensures err { OnErr result (self.new ≡ self.old) }
        ensures valid { language.IsValid self.new }
    {
        let read = decode(self.alloc, bytes);
        self.take_table(read)
    }

    /// Accepts the state bytes that a reader was handed piece by piece, as `take` accepts them: the
    /// table that they give replaces nothing before it was read and unified as a whole. The reader
    /// is spent, whatever the answer is; refused bytes change nothing.
    ///
    /// # Errors
    ///
    /// `Version`, `NotState` and `Memory` as those of `take`; the fault at which the reader stands;
    /// and `Failed` where a `feed` of the reader answered `Memory`. All at place 0.
    pub fn take_read(&mut self, reader: StateReader) -> Result<(), Refusal>
        // As `take` answers all bytes that the reader was handed.
        ensures state { (bytes : List ℕ) → HasTakenIn reader bytes
            → OnOk result (language.IsState bytes) }
        ensures ok { (bytes : List ℕ) → HasTakenIn reader bytes
            → OnOk result (AddsRefusals self.old (language.state_refuses bytes) self.new) }
        ensures refused { (bytes : List ℕ) → HasTakenIn reader bytes → IfErr result (λ why.
            ((why ≡ memory) × ¬ language.IsStateRefusedAtOnce bytes)
            ⊎ language.IsStateFault bytes why) }
        ensures version { (bytes : List ℕ) → HasTakenIn reader bytes → IsOtherStateVersion bytes
            → IsErrOf result (refusal_at Kind.Version 0) }
        // A fault at which the reader stands is always told, and for it no memory is wanted.
        ensures fault { (kind : Kind) → HasFaultAt reader kind
            → IsErrOf result (refusal_at kind 0) }
        ensures err { OnErr result (self.new ≡ self.old) }
        ensures valid { language.IsValid self.new }
    {
        self.take_table(reader.finish())
    }

    /// Accepts all that another site has accepted. What only one of both knows is moved.
    ///
    /// # Errors
    ///
    /// `Memory`, and then this site is as before.
    pub fn unify(&mut self, other: Replica) -> Result<(), Memory>
        ensures ok { OnOk result (AddsRefusals self.old (language.table_refuses other) self.new) }
        // Where one of both has accepted nothing, no memory is wanted.
        ensures opening { (self.old ≡ empty_site) ⊎ (other ≡ empty_site) → IsOk result }
        ensures err { OnErr result (self.new ≡ self.old) }
        ensures valid { language.IsValid self.new }
    {
        let Replica {
            table: others,
            alloc: _,
        } = other;
        self.table.meet_with(others)?;
        Ok(())
    }

    /// The table that the site holds.
    pub fn table(&self) -> &Table<Row>
        ensures { result.now ≡ self.now }
    {
        &self.table
    }

    /// A site that holds this table.
    pub fn of_table(alloc: Global, table: Table<Row>) -> Replica
        requires { IsValidTable table }
        ensures { result ≡ table }
    {
        Replica { table, alloc }
    }

    /// Accepts the table that state bytes were read as, or refuses them for what reading them came
    /// to.
    fn take_table(&mut self, read: Result<Table<Row>, Kind>) -> Result<(), Refusal>
        requires { IfOk read IsValidTable }
        ensures state { (bytes : List ℕ) → ReadsTable bytes read
            → OnOk result (language.IsState bytes) }
        ensures ok { (bytes : List ℕ) → ReadsTable bytes read → length bytes < 2 ^ 64
            → OnOk result (AddsRefusals self.old (language.state_refuses bytes) self.new) }
        ensures refused { (bytes : List ℕ) → ReadsTable bytes read → IfErr result (λ why.
            ((why ≡ memory) × ¬ language.IsStateRefusedAtOnce bytes)
            ⊎ language.IsStateFault bytes why) }
        ensures version { (bytes : List ℕ) → ReadsTable bytes read → IsOtherStateVersion bytes
            → IsErrOf result (refusal_at Kind.Version 0) }
        ensures none { IfErr read (λ kind. IsErrOf result (refusal_at kind 0)) }
        ensures opening { read ≡ Ok empty_site → IsOk result }
        ensures err { OnErr result (self.new ≡ self.old) }
        ensures valid { language.IsValid self.new }
    {
        match read {
            Ok(taken) => {
                self.table.meet_with(taken)?;
                Ok(())
            }
            Err(kind) => Err(Refusal::at(kind, 0)),
        }
    }

    /// The state bytes of the table.
    pub fn state(&self, alloc: Global) -> Result<Vec<u8>, Memory>
        ensures { IfOk result (λ bytes. bytes.items ≡ language.written self.now) }
    {
        encode(alloc, &self.table)
    }

    /// What writes the state bytes of the table, piece by piece.
    ///
    /// # Errors
    ///
    /// `Memory`.
    pub fn state_writer(&self) -> Result<StateWriter<'_>, Memory>
        ensures { IfOk result (λ writer. writer ≡ language.written self.now) }
    {
        StateWriter::new(self.alloc, &self.table)
    }

    /// How many bytes the state of the table has, or the greatest number of 64 bits where it is
    /// more. This takes no memory.
    pub fn state_size(&self) -> u64
        ensures { result ≡ size_of (language.written self.now) }
    {
        size(&self.table)
    }

    /// The JSON of the configuration; or, where there are any, the conflicts; or else what is
    /// incomplete.
    ///
    /// With conflicts no document meets the table; and what is told in JSON is one that does, with
    /// the chosen scalars.
    pub fn export(&self, alloc: Global) -> Result<Export, Memory>
        ensures export { IfOk result (IsExportOfTable self.now) }
        ensures exact { IfOk result (IsExactExport (language.table_refuses self.now)) }
    {
        cue_report::export(alloc, &self.table)
    }

    /// Tells the text of the export while it is made, and its kind: the JSON; or, where there are
    /// any, a line for each conflict; or else one for each place that is incomplete. Memory goes
    /// with the table, and not with what is told.
    ///
    /// # Errors
    ///
    /// Where no more is taken; then the front of the text was.
    pub fn write_export<S: TextSink>(
        &self,
        alloc: Global,
        out: &mut S,
    ) -> Result<ExportKind, S::SinkError>
        ensures export { IfOk result (λ kind. WritesExportOf self.now kind
            (S.taken out.old) (S.taken out.new)) }
        ensures begun { OnErr result
            (WritesExportPrefixOf self.now (S.taken out.old) (S.taken out.new)) }
    {
        cue_report::write_export(alloc, &self.table, out)
    }

    /// The conflicts, in the order of their paths.
    ///
    /// There are none exactly where some document meets the table.
    pub fn conflicts(&self, alloc: Global) -> Result<Vec<Conflict>, Memory>
        ensures conflicts { IfOk result (λ found. AreConflictsOf self.now found.items) }
        ensures exact { IfOk result (λ found.
            (found.items ≡ []) ↔ SomeMeets (language.table_refuses self.now)) }
    {
        cue_report::conflicts(alloc, &self.table)
    }

    /// Tells a line for each conflict, in the order of their paths, as `lines` writes them, and
    /// whether there is one.
    ///
    /// # Errors
    ///
    /// As `write_export`.
    pub fn write_conflicts<S: TextSink>(
        &self,
        alloc: Global,
        out: &mut S,
    ) -> Result<bool, S::SinkError>
        ensures lines { IfOk result (λ some. WritesConflictsOf self.now some
            (S.taken out.old) (S.taken out.new)) }
        ensures begun { OnErr result
            (WritesConflictsPrefixOf self.now (S.taken out.old) (S.taken out.new)) }
    {
        cue_report::write_conflicts(alloc, &self.table, out)
    }

    /// A document that meets the table, also where it is incomplete: where none is chosen, the
    /// first scalar that may stand, and null where anything may. There is none exactly where there
    /// are conflicts.
    pub fn document(&self, alloc: Global) -> Result<Option<Value>, Memory>
        ensures some { IfOk result (λ found. IfSome found
            (λ value. IsDocumentOf IsPicked (language.table_refuses self.now) (view value))) }
        ensures none { IfOk result (λ found. IfNone found
            (¬ SomeMeets (language.table_refuses self.now))) }
        ensures no_float { IfOk result (λ found. IfSome found
            (λ value. has_float (view value) ≡ false)) }
    {
        cue_report::document(alloc, &self.table)
    }

    /// What is incomplete, in the order of the paths.
    pub fn incomplete(&self, alloc: Global) -> Result<Vec<Gap>, Memory>
        ensures { IfOk result (λ gaps. AreGapsOf self.now gaps.items) }
    {
        cue_report::incomplete(alloc, &self.table)
    }

    /// Tells a line for each place that is incomplete, in the order of the paths, as `lines` writes
    /// them, and whether there is one.
    ///
    /// # Errors
    ///
    /// As `write_export`.
    pub fn write_gaps<S: TextSink>(&self, alloc: Global, out: &mut S) -> Result<bool, S::SinkError>
        ensures lines { IfOk result (λ some. WritesGapsOf self.now some
            (S.taken out.old) (S.taken out.new)) }
        ensures begun { OnErr result
            (WritesGapsPrefixOf self.now (S.taken out.old) (S.taken out.new)) }
    {
        cue_report::write_gaps(alloc, &self.table, out)
    }

    /// Tells the canonical text of the table, while it is made.
    ///
    /// # Errors
    ///
    /// As `write_export`.
    pub fn write_printed<S: TextSink>(&self, alloc: Global, out: &mut S) -> Result<(), S::SinkError>
        ensures told { OnOk result
            (Appends (S.taken out.old) (S.taken out.new) (printed_text self.now)) }
        ensures begun { OnErr result
            (WritesPrefix (S.taken out.old) (S.taken out.new) (printed_text self.now)) }
    {
        cue_print::print_to(alloc, &self.table, out)
    }

    /// The canonical text of the table.
    ///
    /// Where something is known, it is a legal text with just the answers of the table, or it is
    /// over a limit of texts.
    pub fn print(&self, alloc: Global) -> Result<String, Memory>
        ensures printed { IfOk result (λ text. string_bytes text ≡ printed_text self.now) }
        ensures again { IfOk result (λ text. IsStateReadAgain self.now (string_bytes text)) }
    {
        cue_print::print(alloc, &self.table)
    }

    /// Another site with the same table.
    pub fn copy(&self, alloc: Global) -> Result<Replica, Memory>
        ensures { IfOk result (λ copied. copied ≡ self.now) }
    {
        Ok(Replica {
            table: self.table.copy(alloc)?,
            alloc,
        })
    }

    /// Whether both sites hold the same table.
    pub fn same(&self, other: &Replica) -> bool
        ensures { IsTrue result ↔ (self.now ≡ other.now) }
    {
        self.table.same(&other.table)
    }
}
