use crate::access::AccessToken;

/// What a site lets in, and how much it answers.
#[derive(Drop)]
pub struct SiteRules {
    /// The token that who writes has to carry, where one is set.
    pub token: Option<AccessToken>,
    /// No answer about the table has more bytes.
    pub limit: usize,
}
