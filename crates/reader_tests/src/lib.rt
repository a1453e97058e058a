// The example that MS-OXRTFEX prints, as far as print tells its bytes.
#![tactic(auto)]

#[cfg(test)]
mod tests {
    use pages::{CodePage, Windows1251};
    use reader::read;
    use records::Kind;
    use std::alloc::{AllocError, Global};
    use std::test::Fail;

    // The HTML, line by line, without the space that ends each line in print.
    const HTML: [&'static str; 24] = [
        "<html><head>",
        "<style>",
        "<!--",
        " /* Style Definitions */",
        " p.MsoNormal, li.MsoNormal {font-family:Arial;}",
        "-->",
        "</style>",
        " <!-- This is a HTML comment,",
        "there is a HTAB character before the comment ",
        "and some newlines inside the comment. -->",
        "</head>",
        "<body>",
        "<p",
        "class=\"MsoNormal\">Note the line break inside a P tag. <b>This is a bold text</b>",
        "</p>",
        "<p class=\"MsoNormal\">",
        "This is a normal text with a character references: &nbsp; &lt; &uml;<br>",
        "characters which have special meaning in RTF: {}\\<br>",
        "</p>",
        "<ol>",
        "    <li class=\"MsoNormal\">This is a list item",
        "</ol>",
        "</body>",
        "</html>",
    ];

    // The RTF that encapsulates it, in the same way.
    const RTF: [&'static str; 39] = [
        "{\\rtf1\\ansi\\ansicpg1251\\fromhtml1 \\deff0",
        "{\\fonttbl {\\f0\\fmodern Courier New;}{\\f1\\fswiss Arial;}{\\f2\\fswiss\\fcharset0 Arial;}}",
        "{\\colortbl\\red0\\green0\\blue0;\\red0\\green0\\blue255;}",
        "{\\*\\htmltag64}",
        "\\uc1\\pard\\plain\\deftab360 \\f0\\fs24 ",
        "{\\*\\htmltag <html><head>\\par",
        "<style>\\par",
        "<!--\\par",
        " /* Style Definitions */\\par",
        " p.MsoNormal, li.MsoNormal \\{font-family:Arial;\\}\\par",
        "-->\\par",
        "</style>\\par",
        "\\tab <!-- This is a HTML comment,\\par",
        "there is a HTAB character before the comment \\par",
        "and some newlines inside the comment. -->\\par",
        "</head>\\par",
        "<body>\\par",
        "<p\\par",
        "class=\"MsoNormal\">}",
        "{\\htmlrtf \\f1 \\htmlrtf0 Note the line break inside a P tag. {\\*\\htmltag <b>}{\\htmlrtf \\b",
        "\\htmlrtf0 This is a bold text{\\*\\htmltag </b>}} \\htmlrtf\\par\\htmlrtf0}",
        "\\htmlrtf \\par \\htmlrtf0 ",
        "{\\*\\htmltag </p>\\par",
        "<p class=\"MsoNormal\">\\par}",
        "{\\htmlrtf \\f1 \\htmlrtf0 This is a normal text with a character references: ",
        "{\\*\\htmltag &nbsp;}\\htmlrtf \\'a0\\htmlrtf0  {\\*\\htmltag &lt;}\\htmlrtf <\\htmlrtf0 ",
        "{\\*\\htmltag &uml;}\\htmlrtf {\\f2\\'a8}\\htmlrtf0{\\*\\htmltag",
        "<br>\\par}\\htmlrtf\\line\\htmlrtf0 ",
        "characters which have special meaning in RTF: \\{\\}\\\\{\\*\\htmltag",
        "<br>\\par}\\htmlrtf\\line\\htmlrtf0\\htmlrtf\\par\\htmlrtf0}",
        "{\\*\\htmltag </p>\\par",
        "<ol>\\par ",
        "    <li class=\"MsoNormal\">}{\\htmlrtf",
        "{{\\*\\pn\\pnlvlbody\\pndec\\pnstart1\\pnindent360{\\pntxta .}}\\li360\\fi-360{\\pntext",
        "1.\\tab} \\f1 \\htmlrtf0 This is a list item}\\htmlrtf\\par\\htmlrtf0}",
        "{\\*\\htmltag \\par",
        "</ol>\\par",
        "</body>\\par",
        "</html>\\par }}",
    ];

    // Room for either, with more than is needed.
    const ROOM: usize = 4096;

    // The lines, with LF after each.
    fn joined(heap: Global, lines: &[&'static str]) -> Result<Vec<u8>, AllocError> {
        let mut all = Vec::new(heap);
        for line in lines {
            all.extend_from_slice(line.as_bytes())?;
            all.push(b'\n')?;
        }
        Ok(all)
    }

    // White space counts for nothing in HTML, and print does not tell it.
    fn packed(heap: Global, bytes: &[u8]) -> Result<Vec<u8>, AllocError> {
        bytes
            .iter()
            .copied()
            .filter(|byte| !matches!(*byte, b' ' | b'\t' | b'\r' | b'\n'))
            .collect(heap)
    }

    #[test]
    fn the_public_example_gives_its_html(rt: HostRuntime) -> Result<(), Fail> {
        let heap = rt.alloc();
        let rtf = joined(heap, &RTF)?;
        let html = joined(heap, &HTML)?;
        let mut content = [0; ROOM];
        let reading = read(&rtf, &Windows1251, &mut content)?;
        assert_eq!(rt; reading.kind, Kind::Html);
        let told = packed(heap, &content[..reading.length])?;
        let printed = packed(heap, &html)?;
        assert_eq!(rt; told.len(), printed.len(), "as long, white space apart");
        assert!(rt; told == printed, "the same bytes, white space apart");
        Ok(())
    }
}
