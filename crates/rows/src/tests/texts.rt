// Texts that are made of others, in place.

// Puts these bytes at a text's front, as far as it has room.
pub(super) fn put_front(text: &mut [u8], front: &[u8]) {
    for (byte, first) in text.iter_mut().zip(front) {
        *byte = *first;
    }
}

// Puts a byte at this place of a text, if it has that place.
pub(super) fn put(text: &mut [u8], place: usize, byte: u8) {
    if let Some(at) = text.get_mut(place) {
        *at = byte;
    }
}
