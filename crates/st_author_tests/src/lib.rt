//! Documents of authors, compared with plain replays from the opening.
#![tactic(auto)]

#[cfg(test)]
mod given;
#[cfg(test)]
mod messages;
#[cfg(test)]
mod replaying;
