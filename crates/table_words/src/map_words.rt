//! Which words of a table are its maps'.
ghost use Rattle.std.specs.Prelude.{◌≡◌, ◌<◌};
ghost use Rattle.table_rule.specs.Layout.{gate_word, root_word};
ghost use Rattle.table_words.specs.Seats.{begin_of};

use crate::words::TableWords;

impl TableWords {
    // The word that names a map's root.
    pub(crate) fn root_word(&self, map: u32) -> usize
        requires { map < (begin_of self.now).maps }
        ensures { result ≡ root_word (begin_of self.now) map }
    {
        self.begin.layout().root_word(map)
    }

    // The word of the gate of a map's writers.
    pub(crate) fn gate_word(&self, map: u32) -> usize
        requires { map < (begin_of self.now).maps }
        ensures { result ≡ gate_word (begin_of self.now) map }
    {
        self.begin.layout().gate_word(map)
    }
}
