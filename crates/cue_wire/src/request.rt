/// What a client asks of a site.
#[derive(Debug, Drop)]
pub enum Request {
    /// To accept a text.
    Text(String),
    /// To accept state bytes.
    State(Vec<u8>),
    /// For its state bytes.
    AskState,
    /// For its export: the JSON, or the lines that tell what stands against it.
    AskExport,
    /// For its conflicts and what is incomplete.
    AskReport,
    /// For its canonical text.
    AskPrint,
}
