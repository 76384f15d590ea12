// The edits that seats have.
ghost use Rattle.std.specs.Prelude.{◌≡◌, ◌<◌, length, replicate, set, get_or, IfOk, Some, None};

use disk_lru::Edit;
use faults::NoMemory;
use std::alloc::Global;
use std::marker::Model;

/// An edit of the disk cache. Where it is let go while it is open, its file stays as a stop would leave it.
pub struct SeatEdit {
    edit: Edit,
}

impl Model for SeatEdit {
    ghost use Rattle.disk_lru.specs.State.{EditValue};

    ghost Value = { EditValue };

    ghost view = { λ s. s.edit };
}

impl SeatEdit {
    fn into_edit(self) -> Edit
        ensures { result ≡ self }
    {
        let SeatEdit { edit } = self;
        edit
    }
}

impl Drop for SeatEdit {
    fn drop(self) {
        let SeatEdit { edit } = self;
        let _ = edit.into_parts();
    }
}

/// The edit of each seat that has one, at the seat's number. After `new` it takes no memory.
#[derive(Drop)]
pub struct EditTable {
    edits: Vec<Option<SeatEdit>>,
}

impl Model for EditTable {
    ghost use Rattle.std.specs.Prelude.{List};
    ghost use Rattle.std.specs.declared.option.Option.{Option};
    ghost use Rattle.disk_lru.specs.State.{EditValue};

    ghost Value = { List (Option EditValue) };

    ghost view = { λ s. s.edits.items };
}

impl EditTable {
    /// No seat of 16 has an edit.
    pub fn new(alloc: Global) -> Result<EditTable, NoMemory>
        ensures { IfOk result (λ table. table ≡ replicate 16 None) }
    {
        let none = [
            None, None, None, None, None, None, None, None, None, None, None, None, None, None,
            None, None,
        ];
        match Vec::from_array(alloc, none) {
            Ok(edits) => Ok(EditTable { edits }),
            Err(_) => Err(NoMemory),
        }
    }

    /// Takes the edit of a seat out.
    pub fn take(&mut self, who: u32) -> Option<Edit>
        requires { who < length self.old }
        ensures result { result ≡ get_or self.old who None }
        ensures table { self.new ≡ set self.old who None }
    {
        let place = &mut self.edits[who as usize];
        place.take().map(|edit| edit.into_edit())
    }

    /// A seat has an edit.
    pub fn put(&mut self, who: u32, edit: Edit)
        requires { who < length self.old }
        ensures { self.new ≡ set self.old who (Some edit) }
    {
        self.edits[who as usize] = Some(SeatEdit { edit });
    }
}
