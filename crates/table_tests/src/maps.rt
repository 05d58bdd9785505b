//! Tests of Map and of the typed atomics, on the words of a shared table.

#[cfg(test)]
mod atomics;
#[cfg(test)]
mod maps;
