// The text that is written.
use jr_json::property_text;
use jr_path::{DocId, List, Name, Path, PathFault};
use jr_rev::{RevVec, Revision, revision_text};
use jr_value::Property;
use std::alloc::{AllocError, Global};

/// The text so far; and whether memory was refused, or a row can't be read: then the program ends
/// with a status of its own.
pub struct Out {
    pub alloc: Global,
    pub text: String,
    pub is_broken: bool,
}

// By hand, so that its parts are let go in one call.
impl Drop for Out {
    fn drop(self) {
        let Out {
            alloc: _,
            text,
            is_broken: _,
        } = self;
        drop(text);
    }
}

impl Out {
    pub fn new(alloc: Global) -> Out {
        Out {
            alloc,
            text: String::new(alloc),
            is_broken: false,
        }
    }

    pub fn put(&mut self, text: &str) {
        let put = self.text.push_str(text);
        self.note(put);
    }

    pub fn note(&mut self, made: Result<(), AllocError>) {
        if made.is_err() {
            self.is_broken = true;
        }
    }

    /// Puts a text that takes memory.
    pub fn put_made(&mut self, made: Result<String, AllocError>) {
        match made {
            Ok(text) => self.put(text.as_str()),
            Err(_) => self.is_broken = true,
        }
    }

    pub fn put_number(&mut self, number: u64) {
        let digits = number.to_string(self.alloc);
        self.put_made(digits);
    }

    /// Puts a word and a number.
    pub fn put_numbered(&mut self, word: &str, number: u64) {
        self.put(word);
        self.put_number(number);
    }

    pub fn put_revision(&mut self, word: &str, r: Revision) {
        self.put(word);
        self.put(revision_text(&r).as_str());
    }

    pub fn put_id(&mut self, word: &str, id: &DocId) {
        self.put(word);
        let text = id.text(self.alloc);
        self.put_made(text);
    }

    /// Puts a word, and a base and a sweep vector with a slash between.
    pub fn put_pin(&mut self, word: &str, base: &RevVec, sweep: &RevVec) {
        self.put(word);
        self.put_vector(base);
        self.put("/");
        self.put_vector(sweep);
    }

    /// Puts `yes` or `no`.
    pub fn put_answer(&mut self, is_so: bool) {
        self.put(if is_so { "yes" } else { "no" });
    }

    pub fn put_bytes(&mut self, bytes: &[u8]) {
        self.put(str::from_utf8(bytes).unwrap_or("?"));
    }

    pub fn put_path(&mut self, path: &Path) {
        let text = path.text();
        self.put_made(text);
    }

    pub fn put_property(&mut self, property: &Property) {
        let text = property_text(self.alloc, property);
        self.put_made(text);
    }

    pub fn put_vector(&mut self, vector: &RevVec) {
        let mut bytes = Vec::new(self.alloc);
        let put = vector.put_text(&mut bytes);
        self.note(put);
        self.put_bytes(bytes.as_slice());
    }

    /// Gives what takes memory; none where it was refused.
    pub fn got<T: Drop>(&mut self, made: Result<T, AllocError>) -> Option<T> {
        match made {
            Ok(made) => Some(made),
            Err(_) => {
                self.is_broken = true;
                None
            }
        }
    }

    /// Puts behind a list what takes memory.
    pub fn push<T: Drop>(&mut self, list: &mut List<T>, made: Result<T, AllocError>) {
        match made {
            Ok(made) => {
                let put = list.push(made);
                self.note(put);
            }
            Err(_) => self.is_broken = true,
        }
    }

    /// The path that a text is; none where it is none.
    pub fn path(&mut self, text: &str) -> Option<Path> {
        match Path::parse(self.alloc, text) {
            Ok(path) => Some(path),
            Err(fault) => {
                self.note_path(&fault);
                None
            }
        }
    }

    /// The path that a text is; that of the root where it is none, and the row then can't be read.
    pub fn path_or_root(&mut self, text: &str) -> Path {
        match Path::parse(self.alloc, text) {
            Ok(path) => path,
            Err(_) => {
                self.is_broken = true;
                Path::root(self.alloc)
            }
        }
    }

    /// The name that a text is; none where it is none.
    pub fn name(&mut self, text: &str) -> Option<Name> {
        match Name::parse(self.alloc, text) {
            Ok(name) => Some(name),
            Err(fault) => {
                self.note_path(&fault);
                None
            }
        }
    }

    fn note_path(&mut self, fault: &PathFault) {
        if let PathFault::Memory = fault {
            self.is_broken = true;
        }
    }
}
