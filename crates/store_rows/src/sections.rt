// What comes of each line.
use crate::{tables, tasks};
use oak_store::DocTable;
use rows::Out;
use std::alloc::Global;

/// Whether the lines are tasks, and the table that lines before have left.
#[derive(Drop)]
pub struct Store {
    is_of_tasks: bool,
    table: DocTable,
}

impl Store {
    /// Before any line. It takes no memory.
    pub fn new(alloc: Global) -> Store {
        Store {
            is_of_tasks: false,
            table: DocTable::new(alloc),
        }
    }

    /// Puts out what comes of a line.
    pub fn add(&mut self, line: &str, out: &mut Out) {
        if line == "== tasks" {
            self.is_of_tasks = true;
            return out.put(line);
        }
        if self.is_of_tasks {
            tasks::add(line, out);
        } else {
            tables::add(line, &mut self.table, out);
        }
    }
}
