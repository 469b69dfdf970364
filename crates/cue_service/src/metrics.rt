ghost use Rattle.std.specs.Prelude.{◌≡◌};

use crate::board::CachedTable;
use crate::counts::TableCounts;
use crate::shown::Shown;
use crate::sizes::AnswerSizes;
use crate::standing::Standing;
use cue_lattice::Memory;
use std::alloc::Global;
use std::fmt::Write;

impl Standing {
    /// The counts in the text form that Prometheus reads.
    pub(crate) fn metrics(
        &self,
        alloc: Global,
        board: &mut CachedTable,
        limit: usize,
    ) -> Result<String, Memory>
        ensures same { board.new ≡ board.old }
    {
        let counts = board.counts(limit)?;
        let mut text = String::new(alloc);
        add_counts(&mut text, &counts)?;
        self.add_limit(&mut text, board.sizes(), limit)?;
        self.add_connections(&mut text)?;
        self.add_pieces(&mut text)?;
        self.add_refusals(&mut text)?;
        self.add_peers(&mut text)?;
        Ok(text)
    }

    fn add_connections(&self, text: &mut String) -> Result<(), Memory> {
        let open = self.open as u64;
        gauge(text, "cuestored_connections", "Open connections.", open)?;
        gauge(
            text,
            "cuestored_connections_waiting",
            "Connections of which a request waits for a change.",
            self.waiting as u64,
        )?;
        counter(
            text,
            "cuestored_connections_turned_away_total",
            "Connections closed as too many.",
            self.turned_away,
        )
    }

    /// The limit of answers, and how long they were.
    fn add_limit(
        &self,
        text: &mut String,
        sizes: &AnswerSizes,
        limit: usize,
    ) -> Result<(), Memory> {
        gauge(
            text,
            "cuestored_answer_limit_bytes",
            "The most bytes of an answer about the table.",
            limit as u64,
        )?;
        write_head(
            text,
            "cuestored_answer_bytes",
            "Bytes of the answer that was made last.",
            "gauge",
        )?;
        for (name, size) in [
            ("export", sizes.export),
            ("print", sizes.print),
            ("report", sizes.report),
            ("state", sizes.state),
        ] {
            write!(text, "cuestored_answer_bytes{{path=\"/{name}\"}} {size}\n")?;
        }
        let half = (limit / 2) as u64;
        gauge(
            text,
            "cuestored_answers_near_limit",
            "1 where an answer has more than half as many bytes as the limit, else 0.",
            u64::from(sizes.longest().1 > half),
        )?;
        counter(
            text,
            "cuestored_pieces_over_limit_total",
            "Pieces refused, since with them an answer would have more bytes than the limit.",
            self.over_limit,
        )
    }

    /// The system's number why the last piece found no room.
    fn room_error(&self) -> u64 {
        match self.no_room {
            Some(error) => error.raw_os_error().unwrap_or(0).unsigned_abs() as u64,
            None => 0,
        }
    }

    fn add_pieces(&self, text: &mut String) -> Result<(), Memory> {
        gauge(
            text,
            "cuestored_journal_bytes",
            "Bytes of the journal that grows.",
            self.journal as u64,
        )?;
        counter(
            text,
            "cuestored_no_room_total",
            "Pieces refused, since the disk had no room.",
            self.without_room,
        )?;
        gauge(
            text,
            "cuestored_no_room_error",
            "The system's number why the last piece found no room, and 0 once one is accepted.",
            self.room_error(),
        )?;
        counter(
            text,
            "cuestored_pieces_taken_total",
            "Pieces accepted by POST.",
            self.taken,
        )?;
        counter(
            text,
            "cuestored_states_gathered_total",
            "States of other sites that brought something.",
            self.gathered,
        )?;
        counter(
            text,
            "cuestored_pieces_gathered_total",
            "Pieces of other sites that were accepted.",
            self.gathered_pieces,
        )?;
        self.add_questions(text)?;
        counter(
            text,
            "cuestored_snapshots_total",
            "Snapshots written.",
            self.snapshots,
        )
    }

    fn add_questions(&self, text: &mut String) -> Result<(), Memory> {
        counter(
            text,
            "cuestored_pieces_answers_total",
            "Questions for pieces that were answered with them.",
            self.told_pieces,
        )?;
        counter(
            text,
            "cuestored_pieces_gone_total",
            "Questions for pieces of which not all are kept.",
            self.gone_pieces,
        )
    }

    fn add_refusals(&self, text: &mut String) -> Result<(), Memory> {
        write_head(
            text,
            "cuestored_pieces_refused_total",
            "Pieces refused, by the kind's number.",
            "counter",
        )?;
        for (number, count) in self.refused.iter().enumerate() {
            if *count > 0 {
                write!(
                    text,
                    "cuestored_pieces_refused_total{{number=\"{number}\"}} {count}\n"
                )?;
            }
        }
        Ok(())
    }

    fn add_peers(&self, text: &mut String) -> Result<(), Memory> {
        write_head(
            text,
            "cuestored_peer_age_seconds",
            "Seconds since a peer answered last.",
            "gauge",
        )?;
        for source in &self.sources {
            if let Some(last) = source.last {
                let age = self.now.saturating_sub(last);
                let name = Shown(source.name.as_str());
                write!(
                    text,
                    "cuestored_peer_age_seconds{{peer=\"{name}\"}} {age}\n"
                )?;
            }
        }
        write_head(
            text,
            "cuestored_peer_failures_total",
            "Questions to a peer that failed.",
            "counter",
        )?;
        for source in &self.sources {
            let (name, failures) = (Shown(source.name.as_str()), source.failures);
            write!(
                text,
                "cuestored_peer_failures_total{{peer=\"{name}\"}} {failures}\n"
            )?;
        }
        Ok(())
    }
}

fn add_counts(text: &mut String, counts: &TableCounts) -> Result<(), Memory> {
    gauge(
        text,
        "cuestored_conflicts",
        "Places where pieces contradict each other.",
        counts.conflicts,
    )?;
    gauge(
        text,
        "cuestored_gaps",
        "Places that are incomplete.",
        counts.gaps,
    )?;
    gauge(text, "cuestored_rows", "Rows of the table.", counts.rows)?;
    gauge(
        text,
        "cuestored_state_bytes",
        "Bytes of the state.",
        counts.bytes,
    )
}

fn write_head(text: &mut String, name: &str, help: &str, kind: &str) -> Result<(), Memory> {
    Ok(write!(text, "# HELP {name} {help}\n# TYPE {name} {kind}\n")?)
}

fn gauge(text: &mut String, name: &str, help: &str, value: u64) -> Result<(), Memory> {
    write_head(text, name, help, "gauge")?;
    Ok(write!(text, "{name} {value}\n")?)
}

fn counter(text: &mut String, name: &str, help: &str, value: u64) -> Result<(), Memory> {
    write_head(text, name, help, "counter")?;
    Ok(write!(text, "{name} {value}\n")?)
}
