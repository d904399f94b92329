//! What is known of the data files: a row for each, and how far the active one goes.
ghost use Rattle.std.specs.Prelude.{◌≡◌, ◌+◌, ◌==◌, ◌<◌, ◌≤◌, ◌++◌, ◌∷◌, [], None, Some, length, position, true, false, IfSome, OnOk, OnErr};
ghost use Rattle.std.specs.Vec.{vec_len, vec_capacity};
ghost use Rattle.bk_files.specs.Catalog.{Begins, Grows, counted, due_of, edited_at, len_of, main, mended, row_of, sealed, torn, with_len, with_torn};
ghost use Rattle.bk_files.specs.Files.{known_of, name_of};

use bk_base::{FileId, Kind, Memory, Name, Row, RowState};

/// The file that is appended to.
#[derive(Clone, Copy, Debug, PartialEq, Eq)]
pub struct Active {
    pub id: FileId,
    /// The place of its row among the rows.
    pub place: usize,
    /// Its known length in bytes: that of the texts appended to it.
    pub len: u64,
    /// An append has failed since, so bytes may stand past that length.
    pub torn: bool,
}

/// What is known of the data files.
#[derive(Debug, Drop)]
pub struct Catalog {
    /// The rows in order of id.
    pub(crate) rows: Vec<Row>,
    pub(crate) active: Option<Active>,
    /// The greatest id given out.
    pub(crate) last: FileId,
    /// Past this many bytes a file takes no further text.
    pub(crate) max_file: u32,
}

impl Catalog {
    /// The name of the active file.
    pub(crate) fn active_name(&self) -> Name
        ensures { result ≡ name_of self.now.active }
    {
        match self.active {
            None => name_of(FileId(0)),
            Some(active) => name_of(active.id),
        }
    }

    /// Whether a text of this size needs a new file.
    pub(crate) fn is_due(&self, size: u32) -> bool
        ensures { result ≡ due_of size self.now.max_file self.now.active }
    {
        match self.active {
            None => true,
            Some(active) => {
                let limit = u64::from(self.max_file);
                active.len != 0 && (limit < active.len || limit - active.len < u64::from(size))
            }
        }
    }

    /// The row of a file.
    pub(crate) fn row(&self, file: FileId) -> Option<Row>
        ensures { result ≡ row_of file.0 self.now.rows.items }
    {
        let place = find(&self.rows, file)?;
        Some(self.rows[place])
    }

    /// Records a text that was appended to the active file, and gives its place in bytes.
    pub(crate) fn grow(&mut self, size: u64) -> u64
        requires { due_of size self.old.max_file self.old.active ≡ false }
        ensures place { result ≡ len_of self.old.active }
        ensures grown { Grows size (known_of self.old) (known_of self.new) }
    {
        let active = self.active.unwrap();
        let len = active.len + size;
        self.active = Some(Active {
            len,
            torn: false,
            ..active
        });
        self.set_len(active.place, len);
        active.len
    }

    /// Records an append to the active file that failed.
    pub(crate) fn tear(&mut self)
        ensures { known_of self.new ≡ torn (known_of self.old) }
    {
        self.set_torn(true);
    }

    /// Records that the active file was repaired.
    pub(crate) fn mend(&mut self)
        ensures { known_of self.new ≡ mended (known_of self.old) }
    {
        self.set_torn(false);
    }

    fn set_torn(&mut self, is_torn: bool)
        ensures { self.new ≡ record self.old { active = with_torn is_torn self.old.active } }
    {
        if let Some(active) = self.active {
            self.active = Some(Active {
                torn: is_torn,
                ..active
            });
        }
    }

    /// Makes room for one more row.
    pub(crate) fn reserve(&mut self) -> Result<(), Memory>
        ensures same { known_of self.new ≡ known_of self.old }
        ensures room { OnOk result (vec_len self.new.rows < vec_capacity self.new.rows) }
    {
        self.rows.reserve(1).map_err(|_| Memory)
    }

    /// Records that the next file was made: it is the active one, and the one before is sealed.
    pub(crate) fn begin(&mut self)
        requires room { vec_len self.old.rows < vec_capacity self.old.rows }
        requires id { self.old.last.0 < 4294967295 }
        ensures { Begins (known_of self.old) (known_of self.new) }
    {
        let id = FileId(self.last.0 + 1);
        let place = self.rows.len();
        if let Some(active) = self.active {
            self.seal(active.place);
        }
        let pushed = self.rows.push(Row {
            len: 0,
            total: 0,
            live: 0,
            refs: 0,
            id,
            state: RowState::Active,
        });
        let _ = pushed.unwrap();
        self.active = Some(Active {
            id,
            place,
            len: 0,
            torn: false,
        });
        self.last = id;
    }

    // The row at this place has this length.
    fn set_len(&mut self, place: usize, len: u64)
        ensures rows { self.new.rows.items ≡ edited_at place (with_len len) self.old.rows.items }
        ensures active { self.new.active ≡ self.old.active }
        ensures last { self.new.last ≡ self.old.last }
        ensures max_file { self.new.max_file ≡ self.old.max_file }
    {
        if place < self.rows.len() {
            let row = &mut self.rows[place];
            row.len = len;
            row.total = len;
        }
    }

    // The row at this place is sealed.
    fn seal(&mut self, place: usize)
        ensures rows { self.new.rows.items ≡ edited_at place sealed self.old.rows.items }
        ensures room { (vec_len self.new.rows ≡ vec_len self.old.rows)
            × (vec_capacity self.new.rows ≡ vec_capacity self.old.rows) }
        ensures active { self.new.active ≡ self.old.active }
        ensures last { self.new.last ≡ self.old.last }
        ensures max_file { self.new.max_file ≡ self.old.max_file }
    {
        if place < self.rows.len() {
            self.rows[place].state = RowState::Sealed;
        }
    }

    /// Sets the counts of a file's row.
    pub(crate) fn count(&mut self, file: FileId, live: u64, refs: u64)
        ensures { known_of self.new ≡ counted file.0 live refs (known_of self.old) }
    {
        if let Some(place) = find(&self.rows, file) {
            let row = &mut self.rows[place];
            row.live = live;
            row.refs = refs;
        }
    }
}

/// The name of a data file.
pub(crate) fn name_of(file: FileId) -> Name
    ensures { result ≡ main file.0 }
{
    Name {
        id: file.0,
        kind: Kind::Main,
    }
}

// The place of a file's row.
fn find(rows: &[Row], file: FileId) -> Option<usize>
    ensures place { result ≡ position (λ row. row.id.0 == file.0) rows.now }
    ensures below { IfSome result (λ place. place < length rows.now) }
{
    rows.iter().position(|row| row.id == file)
}
