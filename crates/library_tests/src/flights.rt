//! What the tests show of flights for threads, by public calls.

#[cfg(test)]
mod alone;
#[cfg(test)]
mod setup;
#[cfg(test)]
mod threads;
