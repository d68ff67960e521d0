// What no clause says: that the built calls answer hostile texts as a reference implementation of the grammar does.
mod beginnings;
mod broken;
mod bytes;
mod compare;
mod formats;
mod lengths;
mod parted;
mod presets;
mod reference;
mod small;
mod texts;
