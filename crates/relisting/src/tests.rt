// Conditions written into lent bytes, which are read after them; where no words are, nothing is written.
use condition_listing::condition;
use listing_writer::Listing;
use std::test::Fail;

const TEXT: &[u8] =
    b"FUNCTION_BLOCK b VAR_INPUT a : REAL; END_VAR VAR_OUTPUT z : REAL; END_VAR FUZZIFY a TERM t := (0, 0), (1, 1); \
END_FUZZIFY DEFUZZIFY z TERM s := 0; METHOD : CoGS; DEFAULT := NC; END_DEFUZZIFY RULEBLOCK r ACCU : MAX; \
RULE 1 : IF a IS NOT t THEN z IS s; END_RULEBLOCK END_FUNCTION_BLOCK";

#[test]
fn conditions_in_lent_bytes(rt: HostRuntime) -> Result<(), Fail> {
    let mut bytes = [0; 1000];
    let n = reader::read(TEXT, &mut bytes).ok().ok_or("refused")?;
    assert!(rt; n <= bytes.len());
    let image = load::examine(&bytes[..n]).ok().ok_or("not accepted")?;
    // Behind the rule's two words, the term and its NOT.
    let end = image.stored.header.words.start + 2;
    assert!(rt; end <= image.stored.bytes.len() / 4);
    let mut text = [b'.'; 12];
    let mut listing = Listing::new(&mut text);
    let first = condition(&mut listing, &image, end);
    let before = condition(&mut listing, &image, 0);
    assert_eq!(rt; (end - first, before, listing.count()), (2, 0, 10));
    assert_eq!(rt; text.as_slice(), b"..a IS NOT t".as_slice());
    Ok(())
}
