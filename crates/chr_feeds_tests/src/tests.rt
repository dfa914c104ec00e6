mod caller;
mod crashes;
mod damages;
mod records;

use chr_records::Records;

/// Whether these are the texts of the records, in this order.
fn are(records: &Records, texts: &[&[u8]]) -> bool {
    records.texts.len() == texts.len()
        && texts
            .iter()
            .zip(&records.texts)
            .all(|(text, read)| read.as_slice() == *text)
}
