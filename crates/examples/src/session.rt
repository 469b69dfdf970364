use crate::command::{Printed, run};
use std::alloc::Global;

/// A session on the way: the last command, what it printed, and what it has to print.
#[derive(Drop)]
pub struct Session<'a> {
    folder: &'a str,
    command: String,
    printed: Printed,
    wanted: String,
    commands: u64,
    wrong: u64,
}

impl<'a> Session<'a> {
    /// The beginning of the session of this folder.
    pub fn new(alloc: Global, folder: &'a str) -> Session<'a> {
        Session {
            folder,
            command: String::new(alloc),
            printed: Printed::nothing(alloc),
            wanted: String::new(alloc),
            commands: 0,
            wrong: 0,
        }
    }

    /// Takes the next line: a command, which is run, or a line that the last command must print.
    pub fn read(&mut self, rt: &HostRuntime, line: &str) -> anyhow::Result<()> {
        let Some(command) = line.strip_prefix("$ ") else {
            self.wanted.push_str(line)?;
            self.wanted.push_str("\n")?;
            return Ok(());
        };
        self.compare(rt)?;
        self.printed = run(rt, self.folder, command, self.printed.status)?;
        self.command.clear();
        self.command.push_str(command)?;
        self.commands = self.commands.saturating_add(1);
        Ok(())
    }

    /// Tells how many commands there were, and how many of them printed something else.
    pub fn end(&mut self, rt: &HostRuntime) -> anyhow::Result<()> {
        self.compare(rt)?;
        println!(rt;
            "{}: {} commands, {} wrong",
            self.folder, self.commands, self.wrong
        )?;
        Ok(())
    }

    /// Tells what the last command printed, where that is something else than wanted.
    fn compare(&mut self, rt: &HostRuntime) -> anyhow::Result<()> {
        if self.printed.bytes.as_slice() != self.wanted.as_bytes() {
            let found = String::from_utf8_lossy(rt.alloc(), self.printed.bytes.as_slice())?;
            println!(rt; "{}: {} printed:\n{found}", self.folder, self.command)?;
            self.wrong = self.wrong.saturating_add(1);
        }
        self.wanted.clear();
        Ok(())
    }
}
