//! Documents, intents and edits together: scenarios over the calls of `st_intent`, `st_join`, `st_doc`, `st_resolve`,
//! `st_heads`, `st_later`, `st_embed` and `st_step`.
#![tactic(auto)]

#[cfg(test)]
mod at_once;
#[cfg(test)]
mod docs;
#[cfg(test)]
mod edits;
#[cfg(test)]
mod embeds;
#[cfg(test)]
mod given;
#[cfg(test)]
mod intents;
#[cfg(test)]
mod joining;
#[cfg(test)]
mod steps;
#[cfg(test)]
mod transactions;
#[cfg(test)]
mod undoing;
#[cfg(test)]
mod ways;
