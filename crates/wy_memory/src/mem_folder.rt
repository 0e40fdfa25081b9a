//! A folder in memory.

ghost use Rattle.std.specs.Prelude.{◌≡◌, ◌≤◌, ◌<◌, ◌++◌, ◌⊎◌, [], length, is_some, Some, IfOk, OnOk, OnErr, Err, Contains};
ghost use Rattle.wy_text.specs.Outside.{next_count};
ghost use Rattle.wy_device.specs.Device.{Performs, IsAnswerOf, IsBytesUpTo, deed_done, deed_failed};
ghost use Rattle.wy_device.specs.Operation.{kind_of};
ghost use Rattle.wy_device.specs.Traps.{text_limit};
ghost use Rattle.wy_memory.specs.Failing.{FailsAsTold};
ghost use Rattle.wy_memory.specs.FolderFiles.{text_in, text_or_empty, Puts, Removes};
ghost use Rattle.wy_memory.specs.MemFolder.{Answers, Leaves, AnswersTooMuch};

use crate::call_record::CallRecord;
use crate::folder_files::{
    FolderFile, FolderList, copied, file_with_room, listing, put, remove, text_of,
};
use std::alloc::Global;
use std::marker::Model;
use wy_device::deed::DeedList;
use wy_device::device::{Device, DeviceError};
use wy_device::operation::{Answer, Kind, LONGEST_TEXT, Op};
use wy_text::list::CallList;
use wy_text::text::{Memory, Text, from_bytes};

/// A folder in memory. It fails at the calls that it was told to fail, and where a text is longer than an answer may be.
/// Of two files of one grant and name the first counts.
#[derive(Drop)]
pub struct MemFolder {
    alloc: Global,
    files: Vec<FolderFile>,
    kept: CallRecord,
}

impl Model for MemFolder {
    ghost use Rattle.wy_memory.specs.MemFolder.{MemFolderState};

    ghost Value = { MemFolderState };

    ghost view = { λ f. record { files = f.files.items; deeds = f.kept.deeds; fails = f.kept.fails; calls = f.kept.calls; faults = f.kept.faults } };
}

impl MemFolder {
    /// A folder with these files that was not asked yet and has no faults. Its calls are counted from 1.
    pub fn new(alloc: Global, files: FolderList, fails: CallList) -> Result<MemFolder, Memory>
        ensures { IfOk result (λ f. f ≡ record { files = files; deeds = []; fails = fails; calls = 0; faults = 0 }) }
    {
        Ok(MemFolder {
            alloc,
            files: copied(alloc, files.as_slice())?,
            kept: CallRecord::new(alloc, fails),
        })
    }

    fn text(&self, grant: &Text, name: &Text) -> Result<Text, Memory>
        ensures { IfOk result (λ text. text ≡ text_or_empty self.now.files grant.now name.now) }
    {
        match text_of(self.files.as_slice(), grant, name) {
            Some(text) => text.copy(),
            None => from_bytes(self.alloc, b""),
        }
    }

    fn has(&self, grant: &Text, name: &Text) -> bool
        ensures { result ≡ is_some (text_in self.now.files grant.now name.now) }
    {
        text_of(self.files.as_slice(), grant, name).is_some()
    }

    /// Answers a text and notes the deed, or fails where it is longer than an answer may be.
    fn answer_text(&mut self, grant: &Text, op: &Op, text: Text) -> Result<Answer, DeviceError>
        ensures answer { IfOk result (λ a. (a ≡ Answer.Bytes text) × (length text ≤ text_limit)) }
        ensures noted { IfOk result (λ a. self.new ≡ record self.old { deeds = self.old.deeds ++ deed_done grant.now op.now a }) }
        ensures too_long { result ≡ Err DeviceError.Failed → text_limit < length text }
        ensures failed { result ≡ Err DeviceError.Failed → self.new ≡ record self.old {
          deeds = self.old.deeds ++ deed_failed grant.now op.now;
          faults = next_count self.old.faults;
        } }
        ensures none { result ≡ Err DeviceError.Memory → self.new ≡ self.old }
        ensures counted { self.old.faults ≤ self.new.faults }
    {
        if text.as_bytes().len() > LONGEST_TEXT {
            return Err(self.kept.fail(grant, op));
        }
        self.kept.answer(grant, op, Answer::Bytes(text))
    }

    /// Answers the text of a name, and the empty text where it is not there.
    fn read_file(&mut self, grant: &Text, op: &Op, name: &Text) -> Result<Answer, DeviceError>
        ensures answer { IfOk result (λ a. (a ≡ Answer.Bytes (text_or_empty self.old.files grant.now name.now)) × IsBytesUpTo text_limit a) }
        ensures noted { IfOk result (λ a. self.new ≡ record self.old { deeds = self.old.deeds ++ deed_done grant.now op.now a }) }
        ensures too_long { result ≡ Err DeviceError.Failed → text_limit < length (text_or_empty self.old.files grant.now name.now) }
        ensures failed { result ≡ Err DeviceError.Failed → self.new ≡ record self.old {
          deeds = self.old.deeds ++ deed_failed grant.now op.now;
          faults = next_count self.old.faults;
        } }
        ensures none { result ≡ Err DeviceError.Memory → self.new ≡ self.old }
        ensures counted { self.old.faults ≤ self.new.faults }
    {
        let text = self.text(grant, name)?;
        self.answer_text(grant, op, text)
    }

    /// Answers the names of a grant's folder.
    fn list_files(&mut self, grant: &Text, op: &Op) -> Result<Answer, DeviceError>
        ensures answer { IfOk result (λ a. Answers self.old.files grant.now Op.FolderNames a × IsBytesUpTo text_limit a) }
        ensures noted { IfOk result (λ a. self.new ≡ record self.old { deeds = self.old.deeds ++ deed_done grant.now op.now a }) }
        ensures too_long { result ≡ Err DeviceError.Failed → AnswersTooMuch self.old.files grant.now Op.FolderNames }
        ensures failed { result ≡ Err DeviceError.Failed → self.new ≡ record self.old {
          deeds = self.old.deeds ++ deed_failed grant.now op.now;
          faults = next_count self.old.faults;
        } }
        ensures none { result ≡ Err DeviceError.Memory → self.new ≡ self.old }
        ensures counted { self.old.faults ≤ self.new.faults }
    {
        let text = listing(self.alloc, self.files.as_slice(), grant)?;
        self.answer_text(grant, op, text)
    }

    /// Answers whether a name is there.
    fn tell_file(&mut self, grant: &Text, op: &Op, name: &Text) -> Result<Answer, DeviceError>
        ensures answer { IfOk result (λ a. a ≡ Answer.Truth (is_some (text_in self.old.files grant.now name.now))) }
        ensures noted { IfOk result (λ a. self.new ≡ record self.old { deeds = self.old.deeds ++ deed_done grant.now op.now a }) }
        ensures err { OnErr result ((result ≡ Err DeviceError.Memory) × (self.new ≡ self.old)) }
    {
        let answer = Answer::Truth(self.has(grant, name));
        self.kept.answer(grant, op, answer)
    }

    /// Makes or replaces the file of a name, and notes the deed.
    fn put_text(
        &mut self,
        grant: &Text,
        op: &Op,
        name: &Text,
        text: Text,
    ) -> Result<Answer, DeviceError>
        ensures answer { IfOk result (λ a. a ≡ Answer.Unit) }
        ensures puts { OnOk result (Puts self.old.files grant.now name.now text self.new.files) }
        ensures noted { IfOk result (λ a. self.new ≡ record self.old {
          files = self.new.files;
          deeds = self.old.deeds ++ deed_done grant.now op.now a;
        }) }
        ensures err { OnErr result ((result ≡ Err DeviceError.Memory) × (self.new ≡ self.old)) }
    {
        let file = file_with_room(&mut self.files, grant, name, text)?;
        let answer = self.kept.answer(grant, op, Answer::Unit)?;
        put(&mut self.files, file);
        Ok(answer)
    }

    /// Makes the text that of a name's file, and notes the deed.
    fn write_file(
        &mut self,
        grant: &Text,
        op: &Op,
        name: &Text,
        text: &Text,
    ) -> Result<Answer, DeviceError>
        ensures answer { IfOk result (λ a. a ≡ Answer.Unit) }
        ensures puts { OnOk result (Puts self.old.files grant.now name.now text.now self.new.files) }
        ensures noted { IfOk result (λ a. self.new ≡ record self.old {
          files = self.new.files;
          deeds = self.old.deeds ++ deed_done grant.now op.now a;
        }) }
        ensures err { OnErr result ((result ≡ Err DeviceError.Memory) × (self.new ≡ self.old)) }
    {
        let copy = text.copy()?;
        self.put_text(grant, op, name, copy)
    }

    /// Adds the text to that of a name's file, and notes the deed.
    fn append_file(
        &mut self,
        grant: &Text,
        op: &Op,
        name: &Text,
        text: &Text,
    ) -> Result<Answer, DeviceError>
        ensures answer { IfOk result (λ a. a ≡ Answer.Unit) }
        ensures puts { OnOk result (Puts self.old.files grant.now name.now (text_or_empty self.old.files grant.now name.now ++ text.now) self.new.files) }
        ensures noted { IfOk result (λ a. self.new ≡ record self.old {
          files = self.new.files;
          deeds = self.old.deeds ++ deed_done grant.now op.now a;
        }) }
        ensures err { OnErr result ((result ≡ Err DeviceError.Memory) × (self.new ≡ self.old)) }
    {
        let whole = self.text(grant, name)?.joined(text)?;
        self.put_text(grant, op, name, whole)
    }

    /// Takes away the file of a name, where it is there, and notes the deed.
    fn remove_file(&mut self, grant: &Text, op: &Op, name: &Text) -> Result<Answer, DeviceError>
        ensures answer { IfOk result (λ a. a ≡ Answer.Unit) }
        ensures removes { OnOk result (Removes self.old.files grant.now name.now self.new.files) }
        ensures noted { IfOk result (λ a. self.new ≡ record self.old {
          files = self.new.files;
          deeds = self.old.deeds ++ deed_done grant.now op.now a;
        }) }
        ensures err { OnErr result ((result ≡ Err DeviceError.Memory) × (self.new ≡ self.old)) }
    {
        let answer = self.kept.answer(grant, op, Answer::Unit)?;
        remove(&mut self.files, grant, name);
        Ok(answer)
    }

    /// Does an operation that it was not told to fail.
    fn serve(&mut self, grant: &Text, op: &Op) -> Result<Answer, DeviceError>
        requires { kind_of op.now ≡ Kind.Folder }
        ensures answer { IfOk result (λ a. IsAnswerOf op.now a × Answers self.old.files grant.now op.now a) }
        ensures leaves { OnOk result (Leaves self.old.files grant.now op.now self.new.files) }
        ensures noted { IfOk result (λ a. self.new ≡ record self.old {
          files = self.new.files;
          deeds = self.old.deeds ++ deed_done grant.now op.now a;
        }) }
        ensures too_long { result ≡ Err DeviceError.Failed → AnswersTooMuch self.old.files grant.now op.now }
        ensures failed { result ≡ Err DeviceError.Failed → self.new ≡ record self.old {
          deeds = self.old.deeds ++ deed_failed grant.now op.now;
          faults = next_count self.old.faults;
        } }
        ensures none { result ≡ Err DeviceError.Memory → self.new ≡ self.old }
        ensures counted { self.old.faults ≤ self.new.faults }
    {
        match op {
            Op::FolderRead(name) => self.read_file(grant, op, name),
            Op::FolderHas(name) => self.tell_file(grant, op, name),
            Op::FolderWrite(name, text) => self.write_file(grant, op, name, text),
            Op::FolderAppend(name, text) => self.append_file(grant, op, name, text),
            Op::FolderNames => self.list_files(grant, op),
            Op::FolderRemove(name) => self.remove_file(grant, op, name),
            _ => unreachable!(),
        }
    }
}

impl Device for MemFolder {
    ghost use Rattle.wy_device.specs.declared.operation.Kind.{Kind};

    ghost state = { λ f. record { kind = Kind.Folder; deeds = Some f.deeds; faults = f.faults } };

    fn kind(&self) -> Kind {
        Kind::Folder
    }

    fn deeds(&self) -> Option<&DeedList> {
        Some(&self.kept.deeds)
    }

    fn perform(&mut self, grant: &Text, op: &Op) -> Result<Answer, DeviceError>
        requires { kind_of op.now ≡ Kind.Folder }
        ensures performed { Performs (⟦<MemFolder as Device>⟧.state self.old) (⟦<MemFolder as Device>⟧.state self.new) grant.now op.now result }

        // It fails exactly at the calls that it was told, and where the text is longer than an answer may be; and
        // it counts a fault exactly where it fails.
        ensures told { FailsAsTold self.old.fails self.old.calls self.old.faults self.new.fails self.new.calls self.new.faults result }
        ensures listed { result ≡ Err DeviceError.Failed
            → Contains self.old.fails (next_count self.old.calls) ⊎ AnswersTooMuch self.old.files grant.now op.now }

        // It answers what it holds, and changes what the operation says and nothing else.
        ensures answers { IfOk result (Answers self.old.files grant.now op.now) }
        ensures leaves { OnOk result (Leaves self.old.files grant.now op.now self.new.files) }
        ensures kept { OnErr result (self.new.files ≡ self.old.files) }
    {
        self.kept.begin(grant, op)?;
        self.serve(grant, op)
    }
}
