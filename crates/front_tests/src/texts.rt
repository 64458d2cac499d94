//! Tests of texts: copies, comparison and printing.

use plain_text::Text;
use std::test::Fail;

#[test]
fn texts(rt: HostRuntime) -> Result<(), Fail> {
    let alloc = rt.alloc();
    let text = Text::from_str(alloc, "state")?;
    let same = text.copy(alloc)?;
    assert!(rt; text.is(&same));
    let ascii = Text::from_ascii(alloc, &[])?;
    assert!(rt; !text.is(&ascii));
    let shown = same.to_string(alloc)?;
    assert_eq!(rt; shown.as_str(), "state");
    Ok(())
}
