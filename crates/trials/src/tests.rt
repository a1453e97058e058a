// What allocates comes to its end.
use crate::{Dice, Draft, Page, Reason, Tally};
use pages::{CodePage, Windows1251};
use std::test::Fail;

#[test]
fn a_draft_grows(rt: HostRuntime) -> Result<(), Fail> {
    let mut dice = Dice::new(1);
    let mut draft = Draft::new(rt.alloc(), &mut dice);
    draft.put("ab")?;
    draft.put([0xFF])?;
    draft.pick(&["cd"])?;
    draft.print(-12)?;
    draft.repeat(b'x', 2)?;
    draft.fill(b'y', 11)?;
    assert_eq!(rt; draft.bytes.as_slice(), b"ab\xFFcd-12xxy".as_slice());
    Ok(())
}

#[test]
fn a_page_is_spread(rt: HostRuntime) -> Result<(), Fail> {
    let page = Page::spread(rt.alloc(), &Windows1251)?;
    assert_eq!(rt; page.number, Windows1251.number());
    assert_eq!(rt; page.character(0xC0), Some('\u{410}'));
    assert_eq!(rt; page.character(0x98), None);
    assert_eq!(rt; page.byte('\u{44F}'), Some(0xFF));
    assert_eq!(rt; page.byte('\u{E9}'), None);
    Ok(())
}

#[test]
fn a_tally_counts(rt: HostRuntime) -> Result<(), Fail> {
    let mut tally = Tally::new(rt.alloc());
    tally.count(Err(Reason::Unclosed.at(0)))?;
    tally.count(Ok("accepted"))?;
    tally.count(Err(Reason::NotUtf8.at(7)))?;
    tally.count(Err(Reason::Unclosed.at(9)))?;
    assert_eq!(rt; tally.answers, 4);
    let text = format!(in rt.alloc(); "{tally}")?;
    assert_eq!(rt; text.as_str(), "accepted: 1\nrefused 4: 2\nrefused 13: 1\n");
    Ok(())
}
