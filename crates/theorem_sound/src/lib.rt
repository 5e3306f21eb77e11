// Sound: what calls can make of a station. Every station that the public calls make is sound, a refused call leaves it as it was, no poll
// sends before the pause or tries again before the slot, and the arms that are there for totality are never reached. No code stands
// here: specs/Lib.antt says which file has what. It leans on every crate of the station.
#![tactic(auto)]
