//! The document over which the author of a message wrote it, kept of a session and moved along the log.
#![tactic(auto)]

mod author_doc;
mod carrying;
mod laws;

pub use author_doc::AuthorDoc;
pub use laws::authors_documents_stay;
