use script_made_lines::words_line;

/// The words of document 10 of the made script of seed 7, as an independent model has them.
const WORDS: &str = "\
all m0 u10 w17 w34 w51 w68 w85 w102 w119 w136 w153 w170 w187 w204 w221 w238 w255 w272 w289 w306 \
w323 w340 w357 w374 w391 w408 w425 w442 w459 w476 w493 w510 w527 w544 w561 w578 w595 w612 w629 w646 \
w663 w680 w697 w714 w731 w748 w765 w782 w799 w816 w833 w850 w867 w884 w901 w918 w935 w952 w969";

/// They stand in the line one behind the other, each behind a space.
#[test]
fn a_made_document_has_sixty_words(rt: HostRuntime) {
    let line = words_line(7, 10);
    assert_eq!(rt; line.as_str().split_at(1), (" ", WORDS));
}
