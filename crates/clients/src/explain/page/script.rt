//! The script of a page, from the end of the one before it to the end of the page. It only shows what the data of the page
//! says.

pub(super) static SCRIPT: &str = r#"</script>
<script>'use strict';
(() => {
  const by = (id) => document.getElementById(id);
  const data = JSON.parse(by('data').textContent);
  const {states, order, slots} = data.program;
  const numbers = new Map(order.map((state, number) => [state, number]));
  const rows = by('program').tBodies[0].rows;
  const steps = data.searches.flatMap((search, index) =>
    search.places.map((place, count) => ({search, index, place, count})));
  if (steps.length === 0) return;

  // The characters of the haystack by their offsets.
  const invalid = new Map(data.invalid.map(([at, ...bytes]) => [at, bytes]));
  const lengthOf = (c) => c < 0x80 ? 1 : c < 0x800 ? 2 : c < 0x10000 ? 3 : 4;
  const characters = [];
  const indexes = new Map();
  let end = 0;
  for (const text of data.haystack) {
    const bytes = invalid.get(end);
    indexes.set(end, characters.length);
    characters.push({text: shown(text, bytes), plain: isPlain(text) && !bytes});
    end += bytes ? bytes.length : lengthOf(text.codePointAt(0));
  }
  indexes.set(end, characters.length);

  function isPlain(text) {
    return /^[\p{L}\p{N}\p{P}\p{S}\p{M} ]$/u.test(text);
  }
  function shown(text, bytes) {
    if (bytes) return bytes.map((byte) => '\\x' + byte.toString(16).toUpperCase().padStart(2, '0')).join('');
    if (isPlain(text)) return text;
    const named = {'\n': '\\n', '\r': '\\r', '\t': '\\t'}[text];
    return named || '\\u{' + text.codePointAt(0).toString(16).toUpperCase() + '}';
  }

  // Makes an element with a text.
  function made(name, text, type) {
    const element = document.createElement(name);
    element.textContent = text;
    if (type) element.className = type;
    return element;
  }

  // What a slot or a group of a thread says.
  const spanOf = (thread, group) => {
    const [start, stop] = [thread[2 + 2 * group], thread[3 + 2 * group]];
    if (start == null && stop == null) return '';
    return (start == null ? '?' : start) + '\u2013' + (stop == null ? '?' : stop);
  };
  const nameOf = (group) => data.groups[group] == null ? 'group ' + group : 'group ' + group + ' ' + data.groups[group];
  const counted = (count, word) => count + ' ' + word + (count === 1 ? '' : 's');
  const longest = data.flags.l;

  // The head of the table of threads, and as many rows as any place needs, up to twelve.
  const head = by('threads').tHead.insertRow();
  const groups = slots / 2;
  for (const text of ['thread', 'state', ...(longest ? ['started'] : [])]) head.append(made('th', text));
  for (let group = 0; group < groups; group += 1) head.append(made('th', nameOf(group)));
  for (const cell of head.cells) cell.scope = 'col';
  const most = Math.max(...steps.map((step) => step.place.threads.length));
  by('threads-box').style.height = (Math.min(most, 12) * 2 + 5) + 'rem';

  // Visits so far in the search of each step.
  const visits = [];
  steps.forEach((step, index) => visits.push((step.count > 0 ? visits[index - 1] : 0) + step.place.visited.length));

  function showWindow(at) {
    const here = indexes.get(at);
    const box = by('window');
    box.replaceChildren();
    const add = (index) => {
      const it = characters[index];
      box.append(it ? made(it.plain ? 'span' : 'i', it.text) : made('span', ' '));
    };
    for (let index = here - 24; index < here; index += 1) add(index);
    box.append(made('b', here < characters.length ? characters[here].text : 'end'));
    for (let index = here + 1; index <= here + 24; index += 1) add(index);
  }

  function showThreads(place) {
    const body = by('threads').tBodies[0];
    body.replaceChildren();
    place.threads.forEach((thread, index) => {
      const row = body.insertRow();
      const start = place.starts && index === place.threads.length - 1;
      const head = made('th', String(index + 1) + (start ? ', the start' : ''));
      head.scope = 'row';
      row.append(head, made('td', String(numbers.get(thread[0]))));
      if (longest) row.append(made('td', String(thread[1])));
      for (let group = 0; group < groups; group += 1) row.append(made('td', spanOf(thread, group)));
    });
  }

  function showStates(place) {
    for (const row of rows) {
      row.classList.remove('visited');
      row.cells[3].textContent = '';
    }
    place.visited.forEach((state, index) => {
      const row = rows[numbers.get(state)];
      row.classList.add('visited');
      row.cells[3].textContent = 'visit ' + (index + 1);
    });
    place.threads.forEach((thread, index) => {
      const cell = rows[numbers.get(thread[0])].cells[3];
      cell.textContent += (cell.textContent ? ', ' : '') + 'thread ' + (index + 1);
    });
  }

  // How the search by the regex comes over a place.
  function wayOf(place) {
    if (place.by === 'passed') return 'The regex passes it by its table, list ' + place.list + '.';
    if (place.by === 'skipped') return 'The regex skips it, in list ' + place.list + ' of its table.';
    if (place.by === 'walked') return 'The regex walks it too.';
    return 'The regex does not look here: from the place before on it finds nothing more.';
  }

  function say(number) {
    const {search, index, place, count} = steps[number];
    const bound = states.length * (count + 1);
    const found = place.match ? 'A match is found here: ' + spanOf(place.match, 0) + '.' : 'No match is found here.';
    const best = search.best ? 'This search finds ' + spanOf(search.best, 0) + (search.repeated ? ', an empty match where the last one ended, which does not count.' : '.') : 'This search finds nothing.';
    const ended = search.over ? best : 'Only the first places of this search are shown.';
    by('said').replaceChildren(
      made('p', 'Place ' + (number + 1) + ' of ' + steps.length + ', at offset ' + place.place + '. Search ' + (index + 1) + ' of ' + data.searches.length + ', from offset ' + search.start + '.'),
      made('p', counted(place.threads.length, 'thread') + '. Visited here: ' + place.visited.length + ' of ' + counted(states.length, 'state') + '. In this search so far: ' + counted(visits[number], 'visit') + ', at most ' + states.length + ' \u00d7 ' + (count + 1) + ' = ' + bound + '.'),
      made('p', found + ' ' + ended),
      made('p', wayOf(place)));
  }

  let current = 0;
  const slider = by('place');
  function show(number) {
    current = Math.min(Math.max(number, 0), steps.length - 1);
    const {place, index} = steps[current];
    slider.value = current;
    slider.setAttribute('aria-valuetext', 'offset ' + place.place + ' of search ' + (index + 1));
    showWindow(place.place);
    showThreads(place);
    showStates(place);
    say(current);
  }

  slider.max = steps.length - 1;
  slider.addEventListener('input', () => show(Number(slider.value)));
  by('first').addEventListener('click', () => show(0));
  by('back').addEventListener('click', () => show(current - 1));
  by('next').addEventListener('click', () => show(current + 1));
  by('last').addEventListener('click', () => show(steps.length - 1));
  document.addEventListener('keydown', (event) => {
    const moves = {ArrowLeft: -1, ArrowRight: 1};
    const free = event.target === document.body || event.target.tagName === 'BUTTON';
    if (!free || event.altKey || event.ctrlKey || event.metaKey || event.shiftKey || !(event.key in moves)) return;
    show(current + moves[event.key]);
    event.preventDefault();
  });
  by('stepper').hidden = false;
  show(0);
})();
</script>
</body>
</html>
"#;
