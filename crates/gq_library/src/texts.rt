// Texts in buffers.
ghost use Rattle.gq_library.specs.Texts.{IsPut};

// Puts a text into a buffer, as much of it as fits, and returns its whole length.
pub(crate) fn put(text: &[u8], buffer: &mut [u8]) -> usize
    ensures { IsPut text.now buffer.old buffer.new result }
{
    let fits = text.len().min(buffer.len());
    buffer[..fits].copy_from_slice(&text[..fits]);
    text.len()
}
