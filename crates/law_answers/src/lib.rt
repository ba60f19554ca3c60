//! What a call of the program owes: the status and the whole answer that a command and a text call for, once for all commands. For the top call, whose clauses cite it.
//! A reader begins with `specs/Dues`. To add a command that decides: a row in each of the definitions by command. `laws` is all that the top call needs of it: one status is due, a text of which all is
//! proved is sound, and a command that reads nothing is answered the same whatever the text is. `one` is for whoever asks what the answers of the program may depend on: what is due is one answer, its
//! bytes too, except that of a unit which is false any of its shortest violating paths may be shown, and that over near bits a unit may be left unknown.
#![tactic(auto)]

pub mod laws;
pub mod one;
